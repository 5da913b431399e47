// Lists of terms.
ghost use Rattle.std.specs.Prelude.{◌≡◌, None, length, IfOk};
ghost use Rattle.formula.specs.Pool.{AllBelow, Grows};
ghost use Rattle.fort_notes.specs.Parts.{parsed, parts, some, term};
ghost use Rattle.note_parts.specs.Answers.{Gives, ends_at, trees_of};

use crate::Lack;
use crate::terms::plain_term;
use crate::tokens::{begins_word, is_over};
use edge_io::List;
use formula::{Headings, TermId, TermPool};
use std::alloc::Global;

/// Where a list of terms ends.
#[derive(Clone, Copy, Debug, PartialEq, Eq)]
pub enum Until {
    /// At the end of the text.
    End,
    /// There, or at the word CLOCK.
    Clock,
}

// Whether a list of terms ends here.
fn ends_at(until: Until, text: &[u8]) -> bool
    ensures { result ≡ ends_at until text.now }
{
    match until {
        Until::End => is_over(text),
        Until::Clock => is_over(text) || begins_word(text, b"CLOCK"),
    }
}

/// Terms up to where their list ends, and the text from there on.
pub fn term_list<'a>(
    alloc: Global,
    pool: &mut TermPool,
    headings: &Headings,
    until: Until,
    text: &'a [u8],
) -> Result<(List<TermId>, &'a [u8]), Lack>
    ensures terms { Gives (λ r. parsed (trees_of pool.new r.0) r.1.now) result
        (parts (ends_at until) (term headings.now None) text.now) }
    ensures below { IfOk result (λ r. AllBelow (length pool.new) r.0) }
    ensures grows { Grows pool.old pool.new }
{
    let mut all = Vec::new(alloc);
    let mut rest = text;
    let mut left = text.len() + 1;
    while left > 0 {
        left -= 1;
        if ends_at(until, rest) {
            return Ok((List::from_vec(all), rest));
        }
        let (id, behind) = plain_term(alloc, pool, headings, rest)?;
        let Ok(()) = all.push(id) else {
            return Err(Lack::Memory);
        };
        rest = behind;
    }
    Err(Lack::Form)
}

/// The same, where there is one term or more.
pub fn some_terms<'a>(
    alloc: Global,
    pool: &mut TermPool,
    headings: &Headings,
    until: Until,
    text: &'a [u8],
) -> Result<(List<TermId>, &'a [u8]), Lack>
    ensures terms { Gives (λ r. parsed (trees_of pool.new r.0) r.1.now) result
        (some (parts (ends_at until) (term headings.now None) text.now)) }
    ensures below { IfOk result (λ r. AllBelow (length pool.new) r.0) }
    ensures grows { Grows pool.old pool.new }
{
    let (ids, rest) = term_list(alloc, pool, headings, until, text)?;
    if ids.as_slice().is_empty() {
        return Err(Lack::Form);
    }
    Ok((ids, rest))
}
