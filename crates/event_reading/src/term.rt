// Terms.
ghost use Rattle.std.specs.Prelude.{IfOk};
ghost use Rattle.formula.specs.Pool.{Grows, IsIn, tree_of};
ghost use Rattle.event_reading.specs.Answers.{Gives};
ghost use Rattle.event_reading.specs.Names.{known_names};
ghost use Rattle.event_reading.specs.Readings.{term_at};

use crate::known::Known;
use crate::lack::Lack;
use crate::writing::is_term_text;
use formula::{ReadFault, TermId, TermPool, read_term};
use std::alloc::Global;

#[tactic(auto, unfolding(crate::specs::Readings::term_at))]
/// The term that begins a text, written as terms are, and the text behind it. Any number of
/// brackets may be open at once.
pub fn term_at<'a>(
    alloc: Global,
    pool: &mut TermPool,
    known: &Known<'_>,
    text: &'a [u8],
) -> Result<(TermId, &'a [u8]), Lack>
    ensures term { Gives (λ r. (tree_of pool.new r.0, r.1.now)) result
        (term_at (known_names known.now) known.now.headings.now known.now.next text.now) }
    ensures is_in { IfOk result (λ r. IsIn pool.new r.0) }
    ensures grows { Grows pool.old pool.new }
{
    let (id, taken) = match read_term(
        alloc,
        pool,
        known.headings,
        known.next.as_ref(),
        None,
        text,
    ) {
        Ok(read) => read,
        Err(ReadFault::NoMemory) => return Err(Lack::Memory),
        Err(_) => return Err(Lack::Spelling),
    };
    if !is_term_text(alloc, pool, known, id, &text[..taken])? {
        return Err(Lack::Spelling);
    }
    Ok((id, &text[taken..]))
}
