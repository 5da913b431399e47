// Graphs as plain data.
use crate::{Fork, Graph, Target};
use edge_io::NoMemory;
use fort_syntax::Plain;
use std::alloc::Global;

impl Plain for Target {
    fn copied(&self, _: Global) -> Result<Target, NoMemory> {
        Ok(*self)
    }

    fn is_same(&self, other: &Target) -> bool {
        match (self, other) {
            (Target::Point(p), Target::Point(q)) => *p == *q,
            (Target::Fork(k), Target::Fork(l)) => *k == *l,
            _ => false,
        }
    }
}

impl Plain for Fork {
    fn copied(&self, alloc: Global) -> Result<Fork, NoMemory> {
        Ok(Fork {
            tested: self.tested,
            targets: self.targets.copied(alloc)?,
        })
    }

    fn is_same(&self, other: &Fork) -> bool {
        self.tested == other.tested && self.targets.is_same(&other.targets)
    }
}

impl Plain for Graph {
    fn copied(&self, alloc: Global) -> Result<Graph, NoMemory> {
        Ok(Graph {
            starts: self.starts.copied(alloc)?,
            forks: self.forks.copied(alloc)?,
            cuts: self.cuts.copied(alloc)?,
            ranks: self.ranks.copied(alloc)?,
            size: self.size,
        })
    }

    fn is_same(&self, other: &Graph) -> bool {
        self.size == other.size
            && self.starts.is_same(&other.starts)
            && self.forks.is_same(&other.forks)
            && self.cuts.is_same(&other.cuts)
            && self.ranks.is_same(&other.ranks)
    }
}
