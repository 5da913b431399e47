// Parts of runs as plain data.
use crate::{Given, Passing, RunCard, Site};
use edge_io::NoMemory;
use fort_syntax::Plain;
use std::alloc::Global;

impl Plain for Site {
    fn copied(&self, _: Global) -> Result<Site, NoMemory> {
        Ok(*self)
    }

    fn is_same(&self, other: &Site) -> bool {
        self.unit == other.unit && self.call == other.call && self.place == other.place
    }
}

impl Plain for Passing {
    fn copied(&self, alloc: Global) -> Result<Passing, NoMemory> {
        match self {
            Passing::Reference => Ok(Passing::Reference),
            Passing::Copy => Ok(Passing::Copy),
            Passing::Listed(sites) => Ok(Passing::Listed(sites.copied(alloc)?)),
        }
    }

    fn is_same(&self, other: &Passing) -> bool {
        match (self, other) {
            (Passing::Reference, Passing::Reference) => true,
            (Passing::Copy, Passing::Copy) => true,
            (Passing::Listed(sites), Passing::Listed(others)) => sites.is_same(others),
            _ => false,
        }
    }
}

impl Plain for Given {
    fn copied(&self, alloc: Global) -> Result<Given, NoMemory> {
        Ok(Given {
            name: self.name,
            cells: self.cells.copied(alloc)?,
        })
    }

    fn is_same(&self, other: &Given) -> bool {
        self.name == other.name && self.cells.is_same(&other.cells)
    }
}

impl Plain for RunCard {
    fn copied(&self, alloc: Global) -> Result<RunCard, NoMemory> {
        Ok(RunCard {
            unit: self.unit,
            least: self.least,
            greatest: self.greatest,
            lazy: self.lazy,
            passing: self.passing.copied(alloc)?,
            steps: self.steps,
            start: self.start.copied(alloc)?,
        })
    }

    fn is_same(&self, other: &RunCard) -> bool {
        self.unit == other.unit
            && self.least == other.least
            && self.greatest == other.greatest
            && self.lazy == other.lazy
            && self.steps == other.steps
            && self.passing.is_same(&other.passing)
            && self.start.is_same(&other.start)
    }
}
