// Steps of certificates.
ghost use Rattle.std.specs.Prelude.{◌≡◌, false, codes, IfOk, List};
ghost use Rattle.formula.specs.Atoms.{same_bytes};
ghost use Rattle.formula.specs.declared.node.Node.{Node};
ghost use Rattle.formula.specs.Pool.{Grows};
ghost use Rattle.fort_notes.specs.Parts.{parsed, bracket};
ghost use Rattle.fort_notes.specs.Forms.{hypothesis, take, cell_bounds, rewrite, cases, unfolded, branch, one_count, two_counts, one_term, step_of, step_parts};
ghost use Rattle.note_parts.specs.Answers.{Gives};
ghost use Rattle.note_forms.specs.FormTrees.{step_tree, IsStepIn, sum_parts, linear_parts};

use formula::{Headings, TermPool, is_same};
use fort_notes::Step;
use note_parts::{Lack, closing, count, inside_brackets, number, opening, plain_term, word};
use std::alloc::Global;

// HYP: the number of a hypothesis.
fn hyp(text: &[u8]) -> Result<(Step, &[u8]), Lack>
    ensures form { (pool : List Node) → Gives (λ r. parsed (step_tree pool r.0) r.1.now) result
        (one_count hypothesis text.now) }
    ensures is_in { (pool : List Node) → IfOk result (λ r. IsStepIn pool r.0) }
{
    let (i, rest) = count(text)?;
    Ok((Step::Hyp(i), rest))
}

// TAKE: the number of a hypothesis.
fn take(text: &[u8]) -> Result<(Step, &[u8]), Lack>
    ensures form { (pool : List Node) → Gives (λ r. parsed (step_tree pool r.0) r.1.now) result
        (one_count take text.now) }
    ensures is_in { (pool : List Node) → IfOk result (λ r. IsStepIn pool r.0) }
{
    let (i, rest) = count(text)?;
    Ok((Step::Take(i), rest))
}

// CELL: the numbers of two hypotheses.
fn cell(text: &[u8]) -> Result<(Step, &[u8]), Lack>
    ensures form { (pool : List Node) → Gives (λ r. parsed (step_tree pool r.0) r.1.now) result
        (two_counts cell_bounds text.now) }
    ensures is_in { (pool : List Node) → IfOk result (λ r. IsStepIn pool r.0) }
{
    let (i, rest) = count(text)?;
    let (j, rest) = count(rest)?;
    Ok((Step::Cell(i, j), rest))
}

// USE: the numbers of two hypotheses.
fn rewriting(text: &[u8]) -> Result<(Step, &[u8]), Lack>
    ensures form { (pool : List Node) → Gives (λ r. parsed (step_tree pool r.0) r.1.now) result
        (two_counts rewrite text.now) }
    ensures is_in { (pool : List Node) → IfOk result (λ r. IsStepIn pool r.0) }
{
    let (i, rest) = count(text)?;
    let (j, rest) = count(rest)?;
    Ok((Step::Use(i, j), rest))
}

// SUM: the factor of the goal, and hypotheses with their factors.
fn sum(alloc: Global, text: &[u8]) -> Result<(Step, &[u8]), Lack>
    ensures form { (pool : List Node) → Gives (λ r. parsed (step_tree pool r.0) r.1.now) result
        (sum_parts text.now) }
    ensures is_in { (pool : List Node) → IfOk result (λ r. IsStepIn pool r.0) }
{
    let (n, rest) = number(text)?;
    let (pairs, rest) = inside_brackets::<(u64, i64)>(alloc, rest)?;
    Ok((Step::Sum(n, pairs), rest))
}

// CASES: a term.
fn case_step<'a>(
    alloc: Global,
    pool: &mut TermPool,
    headings: &Headings,
    text: &'a [u8],
) -> Result<(Step, &'a [u8]), Lack>
    ensures form { Gives (λ r. parsed (step_tree pool.new r.0) r.1.now) result
        (one_term headings.now cases text.now) }
    ensures is_in { IfOk result (λ r. IsStepIn pool.new r.0) }
    ensures grows { Grows pool.old pool.new }
{
    let (t, rest) = plain_term(alloc, pool, headings, text)?;
    Ok((Step::Cases(t), rest))
}

// UNFOLD: a term.
fn unfold<'a>(
    alloc: Global,
    pool: &mut TermPool,
    headings: &Headings,
    text: &'a [u8],
) -> Result<(Step, &'a [u8]), Lack>
    ensures form { Gives (λ r. parsed (step_tree pool.new r.0) r.1.now) result
        (one_term headings.now unfolded text.now) }
    ensures is_in { IfOk result (λ r. IsStepIn pool.new r.0) }
    ensures grows { Grows pool.old pool.new }
{
    let (t, rest) = plain_term(alloc, pool, headings, text)?;
    Ok((Step::Unfold(t), rest))
}

// BRANCH: a term.
fn branch<'a>(
    alloc: Global,
    pool: &mut TermPool,
    headings: &Headings,
    text: &'a [u8],
) -> Result<(Step, &'a [u8]), Lack>
    ensures form { Gives (λ r. parsed (step_tree pool.new r.0) r.1.now) result
        (one_term headings.now branch text.now) }
    ensures is_in { IfOk result (λ r. IsStepIn pool.new r.0) }
    ensures grows { Grows pool.old pool.new }
{
    let (t, rest) = plain_term(alloc, pool, headings, text)?;
    Ok((Step::Branch(t), rest))
}

#[tactic(auto, using(formula::proofs::Grown::grown_terms))]
// LINEAR: two terms.
fn linear<'a>(
    alloc: Global,
    pool: &mut TermPool,
    headings: &Headings,
    text: &'a [u8],
) -> Result<(Step, &'a [u8]), Lack>
    ensures form { Gives (λ r. parsed (step_tree pool.new r.0) r.1.now) result
        (linear_parts headings.now text.now) }
    ensures is_in { IfOk result (λ r. IsStepIn pool.new r.0) }
    ensures grows { Grows pool.old pool.new }
{
    let (a, rest) = plain_term(alloc, pool, headings, text)?;
    let (b, rest) = plain_term(alloc, pool, headings, rest)?;
    Ok((Step::Linear(a, b), rest))
}

// What stands behind the word of a step, where it is none of the first six.
fn later_step<'a>(
    alloc: Global,
    pool: &mut TermPool,
    headings: &Headings,
    word: &[u8],
    text: &'a [u8],
) -> Result<(Step, &'a [u8]), Lack>
    requires hyp { same_bytes (codes "HYP") word.now ≡ false }
    requires same { same_bytes (codes "SAME") word.now ≡ false }
    requires closed { same_bytes (codes "GROUND") word.now ≡ false }
    requires sum { same_bytes (codes "SUM") word.now ≡ false }
    requires split { same_bytes (codes "SPLIT") word.now ≡ false }
    requires suppose { same_bytes (codes "SUPPOSE") word.now ≡ false }
    ensures form { Gives (λ r. parsed (step_tree pool.new r.0) r.1.now) result
        (step_of headings.now word.now text.now) }
    ensures is_in { IfOk result (λ r. IsStepIn pool.new r.0) }
    ensures grows { Grows pool.old pool.new }
{
    if is_same(b"CASES", word) {
        return case_step(alloc, pool, headings, text);
    }
    if is_same(b"TAKE", word) {
        return take(text);
    }
    if is_same(b"CELL", word) {
        return cell(text);
    }
    if is_same(b"UNFOLD", word) {
        return unfold(alloc, pool, headings, text);
    }
    if is_same(b"BRANCH", word) {
        return branch(alloc, pool, headings, text);
    }
    if is_same(b"USE", word) {
        return rewriting(text);
    }
    if is_same(b"LINEAR", word) {
        return linear(alloc, pool, headings, text);
    }
    Err(Lack::Form)
}

// What stands behind the word of a step.
fn step_of<'a>(
    alloc: Global,
    pool: &mut TermPool,
    headings: &Headings,
    word: &[u8],
    text: &'a [u8],
) -> Result<(Step, &'a [u8]), Lack>
    ensures form { Gives (λ r. parsed (step_tree pool.new r.0) r.1.now) result
        (step_of headings.now word.now text.now) }
    ensures is_in { IfOk result (λ r. IsStepIn pool.new r.0) }
    ensures grows { Grows pool.old pool.new }
{
    if is_same(b"HYP", word) {
        return hyp(text);
    }
    if is_same(b"SAME", word) {
        return Ok((Step::Same, text));
    }
    if is_same(b"GROUND", word) {
        return Ok((Step::Ground, text));
    }
    if is_same(b"SUM", word) {
        return sum(alloc, text);
    }
    if is_same(b"SPLIT", word) {
        return Ok((Step::Split, text));
    }
    if is_same(b"SUPPOSE", word) {
        return Ok((Step::Suppose, text));
    }
    later_step(alloc, pool, headings, word, text)
}

/// A step in brackets.
pub(crate) fn step<'a>(
    alloc: Global,
    pool: &mut TermPool,
    headings: &Headings,
    text: &'a [u8],
) -> Result<(Step, &'a [u8]), Lack>
    ensures form { Gives (λ r. parsed (step_tree pool.new r.0) r.1.now) result
        (bracket (step_parts headings.now) text.now) }
    ensures is_in { IfOk result (λ r. IsStepIn pool.new r.0) }
    ensures grows { Grows pool.old pool.new }
{
    let rest = opening(text)?;
    let Some((w, rest)) = word(rest) else {
        return Err(Lack::Form);
    };
    let (s, rest) = step_of(alloc, pool, headings, w, rest)?;
    let rest = closing(rest)?;
    Ok((s, rest))
}
