// Terms.
ghost use Rattle.std.specs.Prelude.{◌≡◌, None, IfOk, option_copied};
ghost use Rattle.formula.specs.Pool.{Grows, IsIn, tree_of};
ghost use Rattle.fort_notes.specs.Parts.{parsed, term};
ghost use Rattle.note_parts.specs.Answers.{Gives};

use crate::Lack;
use formula::{Heading, Headings, ReadFault, TermId, TermPool, read_term};
use std::alloc::Global;

/// The term that begins a text, and the text behind it. The text may use the definitions of the
/// headings, and `next`, whose body is being read. At most 64 brackets may be open at once.
pub fn term<'a>(
    alloc: Global,
    pool: &mut TermPool,
    headings: &Headings,
    next: Option<&Heading>,
    text: &'a [u8],
) -> Result<(TermId, &'a [u8]), Lack>
    ensures term { Gives (λ r. parsed (tree_of pool.new r.0) r.1.now) result
        (term headings.now (option_copied next.entry) text.now) }
    ensures is_in { IfOk result (λ r. IsIn pool.new r.0) }
    ensures grows { Grows pool.old pool.new }
{
    match read_term(alloc, pool, headings, next, Some(64), text) {
        Ok((id, taken)) => Ok((id, &text[taken..])),
        Err(ReadFault::NoMemory) => Err(Lack::Memory),
        Err(ReadFault::UnknownFunction) => Err(Lack::Function),
        Err(_) => Err(Lack::Form),
    }
}

/// The same with the definitions of the headings alone.
pub fn plain_term<'a>(
    alloc: Global,
    pool: &mut TermPool,
    headings: &Headings,
    text: &'a [u8],
) -> Result<(TermId, &'a [u8]), Lack>
    ensures term { Gives (λ r. parsed (tree_of pool.new r.0) r.1.now) result
        (term headings.now None text.now) }
    ensures is_in { IfOk result (λ r. IsIn pool.new r.0) }
    ensures grows { Grows pool.old pool.new }
{
    term(alloc, pool, headings, None, text)
}
