// Names with their places.
ghost use Rattle.std.specs.Prelude.{◌≡◌, ◌++◌, ◌∷◌, [], length, position, is_some, not, if◌then◌else◌, IfOk, OnOk, OnErr};
ghost use Rattle.formula.specs.Atoms.{is_among, same_bytes};

use crate::Word;
use edge_io::{Keys, NoMemory};
use indexmap::IndexSet;
use std::alloc::Global;
use std::marker::Model;

/// Names, each once, with their places: 0, 1 and so on in the order in which they came.
#[derive(Drop)]
pub struct NameTable {
    words: IndexSet<Word, Keys>,
}

impl Model for NameTable {
    ghost use Rattle.std.specs.Prelude.{List, ℕ};

    ghost Value = { List (List ℕ) };

    ghost view = { λ n. n.words.keys };
}

impl NameTable {
    /// No name. It takes no memory.
    pub fn new(alloc: Global, keys: Keys) -> NameTable
        ensures { result ≡ [] }
    {
        NameTable {
            words: IndexSet::with_hasher(alloc, keys),
        }
    }

    /// The number of names.
    pub fn count(&self) -> usize
        ensures { result ≡ length self.now }
    {
        self.words.len()
    }

    /// Puts a name behind the others, and tells whether it was new; one that was there stays where
    /// it is. After a refusal the names are what they were.
    pub fn add(&mut self, name: Word) -> Result<bool, NoMemory>
        ensures new { IfOk result (λ new. new ≡ not (is_among name self.old)) }
        ensures names { OnOk result (self.new ≡ (if is_among name self.old then self.old
            else self.old ++ name ∷ [])) }
        ensures unchanged { OnErr result (self.new ≡ self.old) }
    {
        let Ok((_, new)) = self.words.insert_full(name) else {
            return Err(NoMemory);
        };
        Ok(new)
    }

    /// The place of a name, where it has one.
    pub fn place_of(&self, name: Word) -> Option<usize>
        ensures place { result ≡ position (same_bytes name) self.now }
        ensures found { is_some result ≡ is_among name self.now }
    {
        self.words.get_index_of(&name)
    }
}
