// Names by place.
ghost use Rattle.std.specs.Prelude.{◌≡◌, ◌||◌, [], is_some, IfOk, OnOk};
ghost use Rattle.formula.specs.Atoms.{same_bytes, has_twin};
ghost use Rattle.unit_tables.specs.Tables.{told, Tells};
ghost use Rattle.run_start.specs.Places.{ArePlacesOf};

use edge_io::{Keys, NoMemory};
use formula::Word;
use fort_syntax::{Name, word_of};
use indexmap::IndexMap;
use std::alloc::Global;
use std::marker::Model;

/// Words with their places in a list, which contracts see as the list of the pairs; where a word
/// stands twice, the first of them counts.
#[derive(Drop)]
pub struct WordPlaces {
    map: IndexMap<Word, usize, Keys>,
}

impl Model for WordPlaces {
    ghost use Rattle.std.specs.Prelude.{List, ℕ};

    ghost Value = { List (List ℕ × ℕ) };

    ghost view = { λ t. t.map.entries };
}

fn either(a: bool, b: bool) -> bool
    ensures { result ≡ (a || b) }
{
    a || b
}

impl WordPlaces {
    fn empty(alloc: Global, keys: Keys) -> WordPlaces
        ensures { result ≡ [] }
    {
        WordPlaces {
            map: IndexMap::with_hasher(alloc, keys),
        }
    }

    /// Gives a word a place, in the stead of the one that it had: whether it had one.
    fn put(&mut self, word: Word, place: usize) -> Result<bool, NoMemory>
        ensures told { OnOk result (Tells self.old self.new (same_bytes word) place) }
        ensures had { IfOk result (λ had. had ≡ is_some (told self.old word)) }
    {
        match self.map.insert(word, place) {
            Ok(had) => Ok(had.is_some()),
            Err(_) => Err(NoMemory),
        }
    }

    /// The table of some words, in time for them, and whether one stands twice. No answer depends on
    /// the keys.
    pub(crate) fn new(
        alloc: Global,
        keys: Keys,
        words: &[Word],
    ) -> Result<(WordPlaces, bool), NoMemory>
        ensures places { IfOk result (λ r. ArePlacesOf words.now r.0) }
        ensures twice { IfOk result (λ r. r.1 ≡ has_twin words.now) }
    {
        let mut table = WordPlaces::empty(alloc, keys);
        let mut twice = false;
        let mut left = words.len();
        while left > 0 {
            left -= 1;
            let Ok(had) = table.put(words[left], left) else {
                return Err(NoMemory);
            };
            twice = either(had, twice);
        }
        Ok((table, twice))
    }

    /// The place of a word, where it has one.
    pub(crate) fn get(&self, word: &Word) -> Option<usize>
        ensures { result ≡ told self.now word.now }
    {
        self.map.get(word).copied()
    }

    /// The place of a name, where it has one.
    pub(crate) fn place(&self, name: &Name) -> Option<usize>
        ensures { result ≡ told self.now name.now }
    {
        self.get(&word_of(name))
    }
}
