// The headings of definitions.
ghost use Rattle.std.specs.Prelude.{◌≡◌, ◌-◌, ◌^◌, ◌<◌, ◌≤◌, [], ◌∷◌, ◌++◌, length, slice_get, Some, None, OnOk, OnErr};
ghost use Rattle.formula.specs.Reading.{defined_among};

use crate::{Arity, Func, Head, Heading, Word};
use edge_io::{Keys, NoMemory};
use indexmap::IndexMap;
use std::alloc::Global;
use std::marker::Model;

/// The names of definitions with their numbers of parameters, which contracts see as the list of the
/// headings. They are numbered from 1.
#[derive(Drop)]
pub struct Headings {
    counts: IndexMap<Word, usize, Keys>,
}

impl Model for Headings {
    ghost use Rattle.std.specs.Prelude.{List};
    ghost use Rattle.formula.specs.declared.definition.Heading.{Heading};
    ghost use Rattle.formula.specs.Headings.{AreWords, entry_headings};

    ghost Value = { List Heading };

    ghost view = { λ h. entry_headings h.counts.entries };

    ghost invariant = { λ h. AreWords h.counts.entries };
}

impl Headings {
    /// No heading. It takes no memory. No answer depends on the keys.
    pub fn new(alloc: Global, keys: Keys) -> Headings
        ensures { result ≡ [] }
    {
        Headings {
            counts: IndexMap::with_hasher(alloc, keys),
        }
    }

    /// The number of headings.
    pub fn count(&self) -> usize
        ensures count { result ≡ length self.now }
        ensures small { result < 2 ^ 63 }
    {
        self.counts.len()
    }

    /// The heading of number k.
    pub fn get(&self, k: usize) -> Heading
        requires low { 1 ≤ k }
        requires high { k ≤ length self.now }
        ensures { slice_get self.now (k - 1) ≡ Some result }
    {
        match self.counts.get_index(k - 1) {
            Some((name, count)) => Heading {
                name: *name,
                count: *count,
            },
            None => unreachable!(),
        }
    }

    /// The head of the definition with that name.
    pub fn named(&self, name: &[u8]) -> Option<Head>
        ensures { result ≡ defined_among 1 self.now name.now }
    {
        let total = self.counts.len();
        let word = Word::new(name)?;
        let (index, _, count) = self.counts.get_full(&word)?;
        prove!(index < total);
        Some(Head::Function(Func::Defined(index + 1), Arity::Exactly(*count)))
    }

    /// Puts a heading with a name that no other has behind the others. At `NoMemory` they are as
    /// before.
    pub fn push(&mut self, heading: Heading) -> Result<(), NoMemory>
        requires { defined_among 1 self.old heading.name ≡ None }
        ensures ok { OnOk result (self.new ≡ self.old ++ heading ∷ []) }
        ensures unchanged { OnErr result (self.new ≡ self.old) }
    {
        prove!(heading.name.len() <= 24);
        let Ok(_) = self.counts.insert(heading.name, heading.count) else {
            return Err(NoMemory);
        };
        Ok(())
    }
}
