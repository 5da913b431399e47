// A set of units.
ghost use Rattle.std.specs.Prelude.{◌≡◌, [], OnOk};
ghost use Rattle.name_tables.specs.Labels.{is_known, with_label};

use edge_io::{Keys, NoMemory};
use indexmap::IndexSet;
use std::alloc::Global;
use std::marker::Model;

/// Numbers of units, which contracts see as the list of them in the order in which they came, each once.
#[derive(Drop)]
pub struct UnitSet {
    set: IndexSet<usize, Keys>,
}

impl Model for UnitSet {
    ghost use Rattle.std.specs.Prelude.{List, ℕ};

    ghost Value = { List ℕ };

    ghost view = { λ s. s.set.keys };
}

impl UnitSet {
    /// No unit. It takes no memory. No answer depends on the keys.
    pub fn new(alloc: Global, keys: Keys) -> UnitSet
        ensures { result ≡ [] }
    {
        UnitSet {
            set: IndexSet::with_hasher(alloc, keys),
        }
    }

    /// Whether a unit is in the set.
    pub fn has(&self, number: usize) -> bool
        ensures { result ≡ is_known number self.now }
    {
        self.set.contains(&number)
    }

    /// Adds a unit.
    pub fn add(&mut self, number: usize) -> Result<(), NoMemory>
        ensures { OnOk result (self.new ≡ with_label self.old number) }
    {
        match self.set.insert(number) {
            Ok(_) => Ok(()),
            Err(_) => Err(NoMemory),
        }
    }
}
