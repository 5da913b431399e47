// PROOF.
ghost use Rattle.std.specs.Prelude.{◌≡◌, IfOk};
ghost use Rattle.formula.specs.Pool.{Grows};
ghost use Rattle.fort_notes.specs.Parts.{parsed, bracket, rest_of, some};
ghost use Rattle.fort_notes.specs.Forms.{proof, proof_form, step_parts};
ghost use Rattle.note_parts.specs.Answers.{Finds, Gives};
ghost use Rattle.note_forms.specs.FormTrees.{AreStepsIn, proof_tree, steps_of, lemma_parts};

use crate::steps::step;
use edge_io::List;
use formula::{Headings, NameTable, TermPool, Word};
use fort_notes::{ProofCard, Step};
use note_parts::{Lack, is_over, symbol};
use std::alloc::Global;

// Steps up to the end of a text.
fn steps<'a>(
    alloc: Global,
    pool: &mut TermPool,
    headings: &Headings,
    text: &'a [u8],
) -> Result<(List<Step>, &'a [u8]), Lack>
    ensures steps { Gives (λ r. parsed (steps_of pool.new r.0) r.1.now) result
        (rest_of (bracket (step_parts headings.now)) text.now) }
    ensures are_in { IfOk result (λ r. AreStepsIn pool.new r.0) }
    ensures grows { Grows pool.old pool.new }
{
    let mut all = Vec::new(alloc);
    let mut rest = text;
    let mut left = text.len() + 1;
    while left > 0 {
        left -= 1;
        if is_over(rest) {
            return Ok((List::from_vec(all), rest));
        }
        let (s, behind) = step(alloc, pool, headings, rest)?;
        let Ok(()) = all.push(s) else {
            return Err(Lack::Memory);
        };
        rest = behind;
    }
    Err(Lack::Form)
}

// The same, where there is one step or more.
fn some_steps<'a>(
    alloc: Global,
    pool: &mut TermPool,
    headings: &Headings,
    text: &'a [u8],
) -> Result<(List<Step>, &'a [u8]), Lack>
    ensures steps { Gives (λ r. parsed (steps_of pool.new r.0) r.1.now) result
        (some (rest_of (bracket (step_parts headings.now)) text.now)) }
    ensures are_in { IfOk result (λ r. AreStepsIn pool.new r.0) }
    ensures grows { Grows pool.old pool.new }
{
    let (all, rest) = steps(alloc, pool, headings, text)?;
    if all.as_slice().is_empty() {
        return Err(Lack::Form);
    }
    Ok((all, rest))
}

// The name of a condition that is none of the earlier ones.
fn new_lemma<'a>(earlier: &NameTable, text: &'a [u8]) -> Option<(Word, &'a [u8])>
    ensures { Finds (λ r. parsed r.0 r.1.now) result (lemma_parts earlier.now text.now) }
{
    let Some((lemma, rest)) = symbol(text) else {
        return None;
    };
    if earlier.place_of(lemma).is_some() {
        return None;
    }
    Some((lemma, rest))
}

/// A certificate: the name of a condition, which is none of the earlier ones, and one step or more.
pub fn proof_card<'a>(
    alloc: Global,
    pool: &mut TermPool,
    headings: &Headings,
    earlier: &NameTable,
    text: &'a [u8],
) -> Result<(ProofCard, &'a [u8]), Lack>
    ensures form { Gives (λ r. parsed (proof (proof_tree pool.new r.0)) r.1.now) result
        (proof_form headings.now earlier.now text.now) }
    ensures are_in { IfOk result (λ r. AreStepsIn pool.new r.0.steps) }
    ensures grows { Grows pool.old pool.new }
{
    let Some((lemma, rest)) = new_lemma(earlier, text) else {
        return Err(Lack::Form);
    };
    let (steps, rest) = some_steps(alloc, pool, headings, rest)?;
    Ok((ProofCard { lemma, steps }, rest))
}
