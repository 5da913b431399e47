// A definition that is to be added to others.
ghost use Rattle.std.specs.Prelude.{◌≡◌, ◌+◌, IfOk, length};
ghost use Rattle.formula.specs.Atoms.{has_twin, is_among};
ghost use Rattle.formula.specs.Parameters.{HaveSameWords};

use crate::{Headings, Word};
use edge_io::{Keys, NoMemory};
use indexmap::IndexSet;
use std::alloc::Global;

/// The name and the parameters of a definition behind earlier ones.
#[derive(Drop)]
pub struct Candidate<'a> {
    pub earlier: &'a Headings,
    pub name: Word,
    pub params: &'a [Word],
    /// The parameters, each once.
    table: IndexSet<Word, Keys>,
    ghost words: { HaveSameWords table.keys params.now },
}

impl<'a> Candidate<'a> {
    /// The candidate with these parts, and whether some parameter stands twice.
    pub fn new(
        alloc: Global,
        keys: Keys,
        earlier: &'a Headings,
        name: Word,
        params: &'a [Word],
    ) -> Result<(Candidate<'a>, bool), NoMemory>
        ensures earlier { IfOk result (λ r. r.0.earlier.now ≡ earlier.now) }
        ensures name { IfOk result (λ r. r.0.name ≡ name) }
        ensures params { IfOk result (λ r. r.0.params.now ≡ params.now) }
        ensures twin { IfOk result (λ r. r.1 ≡ has_twin params.now) }
    {
        let (table, twin) = table_of(alloc, keys, params)?;
        Ok((
            Candidate {
                earlier,
                name,
                params,
                table,
            },
            twin,
        ))
    }

    /// The number of the definition.
    pub fn number(&self) -> usize
        ensures { result ≡ length self.now.earlier.now + 1 }
    {
        self.earlier.count() + 1
    }

    /// Whether a word is a parameter.
    pub fn has_parameter(&self, word: Word) -> bool
        ensures { result ≡ is_among word self.now.params.now }
    {
        self.table.contains(&word)
    }
}

/// Some words, each once, and whether one stands twice.
fn table_of(
    alloc: Global,
    keys: Keys,
    words: &[Word],
) -> Result<(IndexSet<Word, Keys>, bool), NoMemory>
    ensures words { IfOk result (λ r. HaveSameWords r.0.keys words.now) }
    ensures twin { IfOk result (λ r. r.1 ≡ has_twin words.now) }
{
    let mut table = IndexSet::with_hasher(alloc, keys);
    let mut twin = false;
    let mut left = words.len();
    while left > 0 {
        left -= 1;
        let Ok(new) = table.insert(words[left]) else {
            return Err(NoMemory);
        };
        twin = twin || !new;
    }
    Ok((table, twin))
}
