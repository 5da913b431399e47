// The definitions that a term may use.
ghost use Rattle.std.specs.Prelude.{◌≡◌, [], MatchOption};
ghost use Rattle.event_text.specs.TermText.{name_at};
ghost use Rattle.event_reading.specs.Names.{known_names};

use formula::{Heading, Headings, Word};

/// The headings of definitions, and of the one whose body is being read, where there is one.
#[derive(Clone, Copy)]
pub struct Known<'a> {
    pub headings: &'a Headings,
    pub next: Option<Heading>,
}

impl<'a> Known<'a> {
    #[tactic(auto, using(crate::proofs::KnownNames::no_number, crate::proofs::KnownNames::earlier_number, crate::proofs::KnownNames::next_number, crate::proofs::KnownNames::behind_none, crate::proofs::KnownNames::behind_next))]
    /// The name of the definition of number k, counted from 1.
    pub fn name(&self, k: usize) -> Option<Word>
        ensures { MatchOption result (name_at (known_names self.now) k ≡ [])
            (λ w. name_at (known_names self.now) k ≡ w) }
    {
        let count = self.headings.count();
        if k == 0 {
            return None;
        }
        if k <= count {
            return Some(self.headings.get(k).name);
        }
        let next = self.next?;
        if k == count + 1 {
            return Some(next.name);
        }
        None
    }
}
