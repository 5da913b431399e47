// A table of places by name.
ghost use Rattle.std.specs.Prelude.{◌≡◌, ◌&&◌, [], OnOk};
ghost use Rattle.formula.specs.Atoms.{same_bytes};
ghost use Rattle.unit_tables.specs.Tables.{told, Tells, is_of_kind};

use edge_io::{Keys, NoMemory};
use fort_syntax::{Name, Unit};
use indexmap::IndexMap;
use std::alloc::Global;
use std::marker::Model;

/// Names with places, each name once, which contracts see as the list of the pairs.
#[derive(Drop)]
pub(crate) struct PlaceTable {
    map: IndexMap<Name, usize, Keys>,
}

impl Model for PlaceTable {
    ghost use Rattle.std.specs.Prelude.{List, ℕ};

    ghost Value = { List (List ℕ × ℕ) };

    ghost view = { λ t. t.map.entries };
}

impl PlaceTable {
    /// No name. It takes no memory.
    pub(crate) fn new(alloc: Global, keys: Keys) -> PlaceTable
        ensures { result ≡ [] }
    {
        PlaceTable {
            map: IndexMap::with_hasher(alloc, keys),
        }
    }

    /// Gives a name a place, in the stead of the place that it had.
    pub(crate) fn put(&mut self, name: Name, place: usize) -> Result<(), NoMemory>
        ensures { OnOk result (Tells self.old self.new (same_bytes name) place) }
    {
        match self.map.insert(name, place) {
            Ok(_) => Ok(()),
            Err(_) => Err(NoMemory),
        }
    }

    /// Gives the name of a unit a place, where the unit is of a kind: a FUNCTION or none.
    pub(crate) fn put_unit(
        &mut self,
        unit: &Unit,
        of_functions: bool,
        place: usize,
    ) -> Result<(), NoMemory>
        ensures { OnOk result (Tells self.old self.new (λ x. is_of_kind of_functions unit.now
            && same_bytes unit.now.name x) place) }
    {
        if unit.sort.is_some() != of_functions {
            return Ok(());
        }
        self.put(unit.name, place)
    }

    /// The place of a name, where it has one.
    pub(crate) fn get(&self, name: &Name) -> Option<usize>
        ensures { result ≡ told self.now name.now }
    {
        self.map.get(name).copied()
    }
}
