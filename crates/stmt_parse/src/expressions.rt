// Expressions.
ghost use Rattle.std.specs.Prelude.{◌≡◌, [], ◌∷◌, ◌++◌, OnOk, IfErr};
ghost use Rattle.stmt_parse.specs.Parsing.{Gives, more_arguments, arguments, bracketed_arguments, named, bracket, primary, front, climb, parse};

use crate::Lack;
use crate::chains::{boxed, joined, takes, takes_power};
use crate::parts::{joint_at, power_at, right_strength};
use crate::tokens::{after, begins, constant_at, name_at, past, starts_with_digit};
use edge_io::List;
use fort_syntax::{Expr, Name};
use std::alloc::Global;

// One more at the end.
fn pushed(all: &mut Vec<Expr>, x: Expr) -> Result<(), Lack>
    ensures ok { OnOk result (all.new.items ≡ all.old.items ++ x ∷ []) }
    ensures err { IfErr result (λ l. l ≡ Lack.Memory) }
{
    match all.push(x) {
        Ok(()) => Ok(()),
        Err(_) => Err(Lack::Memory),
    }
}

#[cycle(parse)]
#[tactic(auto, using(crate::proofs::Rounds::more_next, crate::proofs::Rounds::more_none))]
// Further arguments, each behind a comma.
fn more_arguments(
    alloc: Global,
    rounds: usize,
    first: Vec<Expr>,
    text: &[u8],
) -> Result<(List<Expr>, &[u8]), Lack>
    ensures { Gives (λ r. (r.0, r.1.now)) result (more_arguments (parse rounds) rounds first.items text.now) }
{
    let mut all = first;
    let mut rest = text;
    let mut left = rounds;
    while left > 0 {
        left -= 1;
        if !begins(rest, b",") {
            return Ok((List::from_vec(all), rest));
        }
        let (next, behind) = parse(alloc, rounds, 0, past(rest, 1))?;
        pushed(&mut all, next)?;
        rest = behind;
    }
    Err(Lack::Spelling)
}

#[cycle(parse)]
// One or more arguments.
fn arguments(alloc: Global, rounds: usize, text: &[u8]) -> Result<(List<Expr>, &[u8]), Lack>
    ensures { Gives (λ r. (r.0, r.1.now)) result (arguments (parse rounds) rounds text.now) }
{
    let (first, rest) = parse(alloc, rounds, 0, text)?;
    let mut all = Vec::new(alloc);
    pushed(&mut all, first)?;
    more_arguments(alloc, rounds, all, rest)
}

#[cycle(parse)]
// Arguments and the closing bracket.
pub(crate) fn bracketed_arguments(
    alloc: Global,
    rounds: usize,
    text: &[u8],
) -> Result<(List<Expr>, &[u8]), Lack>
    ensures { Gives (λ r. (r.0, r.1.now)) result (bracketed_arguments (parse rounds) rounds text.now) }
{
    let (all, rest) = arguments(alloc, rounds, text)?;
    let Some(rest) = after(rest, b")") else {
        return Err(Lack::Spelling);
    };
    Ok((all, rest))
}

#[cycle(parse)]
// A name, with arguments where a bracket follows.
pub(crate) fn named(
    alloc: Global,
    rounds: usize,
    name: Name,
    text: &[u8],
) -> Result<(Expr, &[u8]), Lack>
    ensures { Gives (λ r. (r.0, r.1.now)) result (named (parse rounds) rounds name text.now) }
{
    if !begins(text, b"(") {
        return Ok((Expr::Var(name), text));
    }
    let (all, rest) = bracketed_arguments(alloc, rounds, &text[1..])?;
    Ok((Expr::Apply(name, all), rest))
}

#[cycle(parse)]
// An expression and the closing bracket.
fn bracket(alloc: Global, rounds: usize, text: &[u8]) -> Result<(Expr, &[u8]), Lack>
    ensures { Gives (λ r. (r.0, r.1.now)) result (bracket (parse rounds) text.now) }
{
    let (inner, rest) = parse(alloc, rounds, 0, text)?;
    let Some(rest) = after(rest, b")") else {
        return Err(Lack::Spelling);
    };
    let inner = boxed(alloc, inner)?;
    Ok((Expr::Paren(inner), rest))
}

#[cycle(parse)]
// What needs no operator.
fn primary(alloc: Global, rounds: usize, text: &[u8]) -> Result<(Expr, &[u8]), Lack>
    ensures { Gives (λ r. (r.0, r.1.now)) result (primary (parse rounds) rounds text.now) }
{
    if begins(text, b".TRUE.") {
        return Ok((Expr::Truth(true), &text[6..]));
    }
    if begins(text, b".FALSE.") {
        return Ok((Expr::Truth(false), &text[7..]));
    }
    if begins(text, b"(") {
        return bracket(alloc, rounds, &text[1..]);
    }
    if starts_with_digit(text) {
        let Some((n, rest)) = constant_at(text) else {
            return Err(Lack::Spelling);
        };
        return Ok((Expr::Const(n), rest));
    }
    let Some((name, rest)) = name_at(text) else {
        return Err(Lack::Spelling);
    };
    named(alloc, rounds, name, rest)
}

#[cycle(parse)]
// An expression up to its first operator between two parts.
fn front(alloc: Global, rounds: usize, k: u8, text: &[u8]) -> Result<(Expr, &[u8]), Lack>
    ensures { Gives (λ r. (r.0, r.1.now)) result (front (parse rounds) rounds k text.now) }
{
    if begins(text, b".NOT.") {
        if k > 2 {
            return Err(Lack::Spelling);
        }
        let (part, rest) = parse(alloc, rounds, 3, &text[5..])?;
        let part = boxed(alloc, part)?;
        return Ok((Expr::Not(part), rest));
    }
    if begins(text, b"+") {
        if k > 4 {
            return Err(Lack::Spelling);
        }
        let (part, rest) = parse(alloc, rounds, 5, &text[1..])?;
        let part = boxed(alloc, part)?;
        return Ok((Expr::Pos(part), rest));
    }
    if begins(text, b"-") {
        if k > 4 {
            return Err(Lack::Spelling);
        }
        let (negated, rest) = parse(alloc, rounds, 5, &text[1..])?;
        let negated = boxed(alloc, negated)?;
        return Ok((Expr::Neg(negated), rest));
    }
    primary(alloc, rounds, text)
}

#[cycle(parse)]
#[tactic(auto, using(crate::proofs::Rounds::climb_next, crate::proofs::Rounds::climb_none))]
// What stands behind an expression: operators and their right parts.
fn climb(
    alloc: Global,
    rounds: usize,
    k: u8,
    first: Expr,
    text: &[u8],
) -> Result<(Expr, &[u8]), Lack>
    ensures { Gives (λ r. (r.0, r.1.now)) result (climb (parse rounds) rounds k first text.now) }
{
    let mut e = first;
    let mut rest = text;
    let mut left = rounds;
    while left > 0 {
        left -= 1;
        if let Some((exponent, behind)) = power_at(rest) {
            if !takes_power(k, &e) {
                return Ok((e, rest));
            }
            e = Expr::Power(boxed(alloc, e)?, exponent);
            rest = behind;
            continue;
        }
        let Some((joint, behind)) = joint_at(rest) else {
            return Ok((e, rest));
        };
        if !takes(k, &e, joint) {
            return Ok((e, rest));
        }
        let (right, behind) = parse(alloc, rounds, right_strength(joint), behind)?;
        e = joined(alloc, joint, e, right)?;
        rest = behind;
    }
    Err(Lack::Spelling)
}

#[cycle(parse)]
#[tactic(auto, using(crate::proofs::Rounds::parse_next, crate::proofs::Rounds::parse_none))]
// An expression that is bound at least so tightly.
pub(crate) fn parse(alloc: Global, rounds: usize, k: u8, text: &[u8]) -> Result<(Expr, &[u8]), Lack>
    ensures { Gives (λ r. (r.0, r.1.now)) result (parse rounds k text.now) }
{
    if rounds == 0 {
        return Err(Lack::Spelling);
    }
    let (first, rest) = front(alloc, rounds - 1, k, text)?;
    climb(alloc, rounds - 1, k, first, rest)
}
