// A set of names.
ghost use Rattle.std.specs.Prelude.{◌≡◌, [], not, IfOk, OnOk};
ghost use Rattle.formula.specs.Atoms.{is_among};
ghost use Rattle.name_tables.specs.Sets.{with_name, with_names, repeats};

use edge_io::{Keys, NoMemory};
use fort_syntax::Name;
use indexmap::IndexSet;
use std::alloc::Global;
use std::marker::Model;

/// Names, which contracts see as the list of them in the order in which they came, each once.
#[derive(Drop)]
pub struct NameSet {
    set: IndexSet<Name, Keys>,
}

impl Model for NameSet {
    ghost use Rattle.std.specs.Prelude.{List, ℕ};

    ghost Value = { List (List ℕ) };

    ghost view = { λ s. s.set.keys };
}

impl NameSet {
    /// No names. It takes no memory. No answer depends on the keys.
    pub fn new(alloc: Global, keys: Keys) -> NameSet
        ensures { result ≡ [] }
    {
        NameSet {
            set: IndexSet::with_hasher(alloc, keys),
        }
    }

    /// The names in the order in which they came.
    pub fn names(&self) -> &[Name]
        ensures { result.now ≡ self.now }
    {
        self.set.as_slice()
    }

    /// Whether a name is in the set.
    pub fn has(&self, name: &Name) -> bool
        ensures { result ≡ is_among name.now self.now }
    {
        self.set.contains(name)
    }

    /// Adds a name: whether it was not there. At `NoMemory` the set is as before.
    pub fn add(&mut self, name: Name) -> Result<bool, NoMemory>
        ensures new { IfOk result (λ new. new ≡ not (is_among name self.old)) }
        ensures after { OnOk result (self.new ≡ with_name self.old name) }
    {
        match self.set.insert(name) {
            Ok(new) => Ok(new),
            Err(_) => Err(NoMemory),
        }
    }

    /// Adds names: whether one of them was there, or stands twice among them.
    pub fn add_all(&mut self, names: &[Name]) -> Result<bool, NoMemory>
        ensures again { IfOk result (λ again. again ≡ repeats self.old names.now) }
        ensures after { OnOk result (self.new ≡ with_names self.old names.now) }
    {
        let mut again = false;
        for name in names {
            let Ok(new) = self.add(*name) else {
                return Err(NoMemory);
            };
            again = again || !new;
        }
        Ok(again)
    }
}
