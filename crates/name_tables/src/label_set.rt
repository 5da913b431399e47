// A set of labels.
ghost use Rattle.std.specs.Prelude.{◌≡◌, ◌==◌, ◌&&◌, [], not, IfOk, OnOk};
ghost use Rattle.name_tables.specs.Labels.{is_known, with_label};

use edge_io::{Keys, NoMemory};
use indexmap::IndexSet;
use std::alloc::Global;
use std::marker::Model;

/// Labels, which contracts see as the list of them in the order in which they came, each once.
#[derive(Drop)]
pub struct LabelSet {
    set: IndexSet<u32, Keys>,
}

impl Model for LabelSet {
    ghost use Rattle.std.specs.Prelude.{List, ℕ};

    ghost Value = { List ℕ };

    ghost view = { λ s. s.set.keys };
}

impl LabelSet {
    /// No labels. It takes no memory. No answer depends on the keys.
    pub fn new(alloc: Global, keys: Keys) -> LabelSet
        ensures { result ≡ [] }
    {
        LabelSet {
            set: IndexSet::with_hasher(alloc, keys),
        }
    }

    /// Whether a label is in the set.
    pub fn has(&self, label: u32) -> bool
        ensures { result ≡ is_known label self.now }
    {
        self.set.contains(&label)
    }

    /// Adds a label.
    pub fn add(&mut self, label: u32) -> Result<(), NoMemory>
        ensures { OnOk result (self.new ≡ with_label self.old label) }
    {
        match self.set.insert(label) {
            Ok(_) => Ok(()),
            Err(_) => Err(NoMemory),
        }
    }
}
