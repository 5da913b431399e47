// INPUT, OUTPUT and ASSERT.
ghost use Rattle.std.specs.Prelude.{◌≡◌, IfOk, length};
ghost use Rattle.formula.specs.Pool.{AllBelow, Grows};
ghost use Rattle.fort_notes.specs.Parts.{parsed};
ghost use Rattle.fort_notes.specs.Forms.{terms, clock_form, assertion_form};
ghost use Rattle.note_parts.specs.Answers.{Gives, trees_of};
ghost use Rattle.note_forms.specs.FormTrees.{assertion_of, IsAssertedIn};

use crate::Asserted;
use edge_io::List;
use formula::{Headings, TermId, TermPool};
use note_parts::{Lack, Until, is_over, sign_word, some_terms, term_list};
use std::alloc::Global;

/// One term or more, up to the end of the text.
pub fn terms<'a>(
    alloc: Global,
    pool: &mut TermPool,
    headings: &Headings,
    text: &'a [u8],
) -> Result<(List<TermId>, &'a [u8]), Lack>
    ensures terms { Gives (λ r. parsed (trees_of pool.new r.0) r.1.now) result (terms headings.now text.now) }
    ensures below { IfOk result (λ r. AllBelow (length pool.new) r.0) }
    ensures grows { Grows pool.old pool.new }
{
    some_terms(alloc, pool, headings, Until::End, text)
}

#[tactic(auto, using(crate::proofs::Pools::trees_stay, crate::proofs::Pools::below_stays))]
// CLOCK and the parts of the clock, or nothing.
fn clocked<'a>(
    alloc: Global,
    pool: &mut TermPool,
    headings: &Headings,
    terms: List<TermId>,
    text: &'a [u8],
) -> Result<(Asserted, &'a [u8]), Lack>
    requires { AllBelow (length pool.old) terms }
    ensures form { Gives (λ r. parsed (assertion_of pool.new r.0) r.1.now) result
        (clock_form headings.now (trees_of pool.old terms) text.now) }
    ensures below { IfOk result (λ r. IsAssertedIn pool.new r.0) }
    ensures grows { Grows pool.old pool.new }
{
    if is_over(text) {
        let clock = List::from_vec(Vec::new(alloc));
        return Ok((
            Asserted {
                terms,
                has_clock: false,
                clock,
            },
            text,
        ));
    }
    let rest = sign_word(text, b"CLOCK")?;
    let (clock, rest) = term_list(alloc, pool, headings, Until::End, rest)?;
    Ok((
        Asserted {
            terms,
            has_clock: true,
            clock,
        },
        rest,
    ))
}

/// One term or more, and where CLOCK stands behind them the parts of a clock.
pub fn asserted<'a>(
    alloc: Global,
    pool: &mut TermPool,
    headings: &Headings,
    text: &'a [u8],
) -> Result<(Asserted, &'a [u8]), Lack>
    ensures form { Gives (λ r. parsed (assertion_of pool.new r.0) r.1.now) result
        (assertion_form headings.now text.now) }
    ensures below { IfOk result (λ r. IsAssertedIn pool.new r.0) }
    ensures grows { Grows pool.old pool.new }
{
    let (terms, rest) = some_terms(alloc, pool, headings, Until::Clock, text)?;
    clocked(alloc, pool, headings, terms, rest)
}
