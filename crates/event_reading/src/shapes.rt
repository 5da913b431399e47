// The shapes of terms.
ghost use Rattle.std.specs.Prelude.{◌≡◌, ◌≢◌, [], ◌∷◌, None, Some, length, map, option_map, MatchOption, IfOk};
ghost use Rattle.formula.specs.Adding.{IsBodyIn};
ghost use Rattle.formula.specs.Pool.{AllBelow, IsIn, tree_of};
ghost use Rattle.formula.specs.Worth.{body_of};
ghost use Rattle.event_reading.specs.Answers.{Gives};
ghost use Rattle.event_reading.specs.Lines.{call_of, counted, implication, is_test, is_that_symbol, is_zero};

use crate::lack::Lack;
use edge_io::List;
use formula::{Body, BuiltIn, Func, Node, TermId, TermPool, Word, is_same};
use std::alloc::Global;

#[tactic(auto, using(crate::proofs::Calls::called, crate::proofs::Calls::other_call))]
// The arguments of a term that is this function of them.
fn call_of(pool: &TermPool, function: BuiltIn, id: TermId) -> Option<&[TermId]>
    requires { IsIn pool.now id }
    ensures value { option_map (λ ids. map (tree_of pool.now) ids.now) result ≡ call_of function
        (tree_of pool.now id) }
    ensures inside { MatchOption result (Unit {0}) (λ ids. AllBelow (length pool.now) ids.now) }
{
    match pool.node(id) {
        Node::Apply(Func::BuiltIn(other), args) if is_same(function.name(), other.name()) => {
            Some(args.as_slice())
        }
        _ => None,
    }
}

// Whether a term is that symbol.
fn is_that_symbol(pool: &TermPool, id: TermId, wanted: Word) -> bool
    requires { IsIn pool.now id }
    ensures { result ≡ is_that_symbol wanted (tree_of pool.now id) }
{
    match pool.node(id) {
        Node::Symbol(name) => wanted == *name,
        _ => false,
    }
}

// Whether a term is the number 0.
fn is_zero(pool: &TermPool, id: TermId) -> bool
    requires { IsIn pool.now id }
    ensures { result ≡ is_zero (tree_of pool.now id) }
{
    match pool.node(id) {
        Node::Num(n) => *n == 0,
        _ => false,
    }
}

// Two ids.
fn two(ids: &[TermId]) -> Option<(TermId, TermId)>
    ensures { MatchOption result ((a : TermId) (b : TermId) → ids.now ≢ a ∷ b ∷ [])
        (λ p. ids.now ≡ p.0 ∷ p.1 ∷ []) }
{
    match ids {
        [a, b] => Some((*a, *b)),
        _ => None,
    }
}

// Three ids.
fn three(ids: &[TermId]) -> Option<(TermId, TermId, TermId)>
    ensures { MatchOption result ((a : TermId) (b : TermId) (c : TermId) → ids.now ≢ a ∷ b ∷ c ∷ [])
        (λ p. ids.now ≡ p.0 ∷ p.1 ∷ p.2 ∷ []) }
{
    match ids {
        [a, b, c] => Some((*a, *b, *c)),
        _ => None,
    }
}

// Whether a term says that a word is at most 0.
fn is_test(pool: &TermPool, word: Word, id: TermId) -> bool
    requires { IsIn pool.now id }
    ensures { result ≡ is_test word (tree_of pool.now id) }
{
    let Some(args) = call_of(pool, BuiltIn::AtMost, id) else {
        return false;
    };
    let Some((a, b)) = two(args) else {
        return false;
    };
    is_that_symbol(pool, a, word) && is_zero(pool, b)
}

/// The body of a term: one that gives its second part where the first parameter is at most 0
/// counts.
pub fn counted(pool: &TermPool, params: &[Word], id: TermId) -> Body
    requires { IsIn pool.now id }
    ensures value { body_of pool.now result ≡ counted params.now (tree_of pool.now id) }
    ensures inside { IsBodyIn pool.now result }
{
    let [word, ..] = params else {
        return Body::Plain(id);
    };
    let Some(args) = call_of(pool, BuiltIn::If, id) else {
        return Body::Plain(id);
    };
    let Some((test, base, step)) = three(args) else {
        return Body::Plain(id);
    };
    if is_test(pool, *word, test) {
        return Body::Counting(base, step);
    }
    Body::Plain(id)
}

/// The hypotheses and the goal of an implication.
pub fn implication(
    alloc: Global,
    pool: &TermPool,
    id: TermId,
) -> Result<(List<TermId>, TermId), Lack>
    requires { IsIn pool.now id }
    ensures value { Gives (λ r. (map (tree_of pool.now) r.0, tree_of pool.now r.1)) result
        (implication (tree_of pool.now id)) }
    ensures inside { IfOk result (λ r. AllBelow (length pool.now) r.0 × IsIn pool.now r.1) }
{
    let Some(args) = call_of(pool, BuiltIn::Implies, id) else {
        return Err(Lack::Spelling);
    };
    let Some((all, goal)) = two(args) else {
        return Err(Lack::Spelling);
    };
    let Some(hyps) = call_of(pool, BuiltIn::And, all) else {
        return Err(Lack::Spelling);
    };
    let mut items = Vec::new(alloc);
    let Ok(()) = items.extend_from_slice(hyps) else {
        return Err(Lack::Memory);
    };
    Ok((List::from_vec(items), goal))
}
