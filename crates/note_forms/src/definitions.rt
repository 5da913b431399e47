// DEFN and DEFR.
ghost use Rattle.std.specs.Prelude.{◌≡◌, IfOk, Some, option_copied};
ghost use Rattle.formula.specs.Adding.{IsBodyIn};
ghost use Rattle.formula.specs.Pool.{Grows, IsIn, tree_of};
ghost use Rattle.formula.specs.Worth.{function_of};
ghost use Rattle.fort_notes.specs.Parts.{parsed, term, whole};
ghost use Rattle.fort_notes.specs.Forms.{definition, parameters, plain_form, counting_form};
ghost use Rattle.note_parts.specs.Answers.{Gives};

use edge_io::List;
use formula::{Body, Definition, Heading, Headings, TermId, TermPool, Word};
use note_parts::{Lack, closing, function_name, inside_brackets, is_over, opening, term};
use std::alloc::Global;

// Parameters in brackets.
fn parameters(alloc: Global, text: &[u8]) -> Result<(List<Word>, &[u8]), Lack>
    ensures { Gives (λ r. parsed r.0 r.1.now) result (parameters text.now) }
{
    let rest = opening(text)?;
    let (params, rest) = inside_brackets::<Word>(alloc, rest)?;
    let rest = closing(rest)?;
    Ok((params, rest))
}

// A term that nothing stands behind.
fn last_term<'a>(
    alloc: Global,
    pool: &mut TermPool,
    headings: &Headings,
    next: Option<&Heading>,
    text: &'a [u8],
) -> Result<(TermId, &'a [u8]), Lack>
    ensures term { Gives (λ r. parsed (tree_of pool.new r.0) r.1.now) result
        (whole (term headings.now (option_copied next.entry) text.now)) }
    ensures is_in { IfOk result (λ r. IsIn pool.new r.0) }
    ensures grows { Grows pool.old pool.new }
{
    let (t, rest) = term(alloc, pool, headings, next, text)?;
    if !is_over(rest) {
        return Err(Lack::Form);
    }
    Ok((t, rest))
}

/// The definition of a name, parameters and a term.
pub fn plain_definition<'a>(
    alloc: Global,
    pool: &mut TermPool,
    headings: &Headings,
    text: &'a [u8],
) -> Result<(Definition, &'a [u8]), Lack>
    ensures form { Gives (λ r. parsed (definition (function_of pool.new r.0)) r.1.now) result
        (plain_form headings.now text.now) }
    ensures is_in { IfOk result (λ r. IsBodyIn pool.new r.0.body) }
    ensures grows { Grows pool.old pool.new }
{
    let Some((name, rest)) = function_name(text) else {
        return Err(Lack::Form);
    };
    let (params, rest) = parameters(alloc, rest)?;
    let count = params.as_slice().len();
    let heading = Heading { name, count };
    let (t, rest) = last_term(alloc, pool, headings, Some(&heading), rest)?;
    let body = Body::Plain(t);
    Ok((Definition { name, params, body }, rest))
}

#[tactic(auto, using(formula::proofs::Grown::grown_terms))]
/// The counting definition of a name, parameters, a base and a step.
pub fn counting_definition<'a>(
    alloc: Global,
    pool: &mut TermPool,
    headings: &Headings,
    text: &'a [u8],
) -> Result<(Definition, &'a [u8]), Lack>
    ensures form { Gives (λ r. parsed (definition (function_of pool.new r.0)) r.1.now) result
        (counting_form headings.now text.now) }
    ensures is_in { IfOk result (λ r. IsBodyIn pool.new r.0.body) }
    ensures grows { Grows pool.old pool.new }
{
    let Some((name, rest)) = function_name(text) else {
        return Err(Lack::Form);
    };
    let (params, rest) = parameters(alloc, rest)?;
    let count = params.as_slice().len();
    let heading = Heading { name, count };
    let (base, rest) = term(alloc, pool, headings, Some(&heading), rest)?;
    let (step, rest) = last_term(alloc, pool, headings, Some(&heading), rest)?;
    let body = Body::Counting(base, step);
    Ok((Definition { name, params, body }, rest))
}
