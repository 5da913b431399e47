// Executable statements.
ghost use Rattle.std.specs.Prelude.{◌≡◌, IfOk, IfErr, option_map};
ghost use Rattle.stmt_parse.specs.Parsing.{Gives, parse};
ghost use Rattle.stmt_parse.specs.Statements.{left_at, assign, go_to, computed, param_at, step_at, do_of, actuals_at, call, condition_at, arith_if, is_word, jump, plain, carried_if, carried, is_77, behind_condition, if_of, else_if, block_part, other};

use crate::Lack;
use crate::declarations::ends;
use crate::expressions::{bracketed_arguments, named, parse};
use crate::lists::bracketed_labels;
use crate::tokens::{after, begins, constant_at, label_at, name_at, starts_with_digit};
use edge_io::{Boxed, List};
use fort_syntax::{Dialect, Expr, Param, Stmt};
use std::alloc::Global;

// The left side of an assignment.
#[tactic(auto, unfolding(crate::specs::Statements::left_at))]
fn left_at(alloc: Global, rounds: usize, text: &[u8]) -> Result<(Expr, &[u8]), Lack>
    ensures { Gives (λ r. (r.0, r.1.now)) result (left_at rounds text.now) }
{
    let Some((name, rest)) = name_at(text) else {
        return Err(Lack::Spelling);
    };
    named(alloc, rounds, name, rest)
}

// An assignment.
#[tactic(auto, unfolding(crate::specs::Statements::assign))]
pub(crate) fn assign(alloc: Global, rounds: usize, text: &[u8]) -> Result<Stmt, Lack>
    ensures { Gives (λ s. s) result (assign rounds text.now) }
{
    let (left, rest) = left_at(alloc, rounds, text)?;
    let Some(rest) = after(rest, b"=") else {
        return Err(Lack::Spelling);
    };
    let (right, rest) = parse(alloc, rounds, 0, rest)?;
    if !ends(rest) {
        return Err(Lack::Spelling);
    }
    Ok(Stmt::Assign(left, right))
}

#[tactic(auto, unfolding(crate::specs::Statements::go_to))]
fn go_to(text: &[u8]) -> Result<Stmt, Lack>
    ensures { Gives (λ s. s) result (go_to text.now) }
{
    let Some((label, rest)) = label_at(text) else {
        return Err(Lack::Spelling);
    };
    if !ends(rest) {
        return Err(Lack::Spelling);
    }
    Ok(Stmt::GoTo(label))
}

// Behind `GOTO(`.
#[tactic(auto, unfolding(crate::specs::Statements::computed))]
fn computed(alloc: Global, rounds: usize, text: &[u8]) -> Result<Stmt, Lack>
    ensures { Gives (λ s. s) result (computed rounds text.now) }
{
    let (labels, rest) = bracketed_labels(alloc, rounds, text)?;
    let Some(rest) = after(rest, b",") else {
        return Err(Lack::Spelling);
    };
    let Some((name, rest)) = name_at(rest) else {
        return Err(Lack::Spelling);
    };
    if !ends(rest) {
        return Err(Lack::Spelling);
    }
    Ok(Stmt::Computed(labels, name))
}

#[tactic(auto, unfolding(crate::specs::Statements::jump))]
fn jump(alloc: Global, rounds: usize, text: &[u8]) -> Result<Stmt, Lack>
    ensures { Gives (λ s. s) result (jump rounds text.now) }
{
    if begins(text, b"(") {
        return computed(alloc, rounds, &text[1..]);
    }
    go_to(text)
}

// A parameter of a DO.
#[tactic(auto, unfolding(crate::specs::Statements::param_at))]
fn param_at(text: &[u8]) -> Option<(Param, &[u8])>
    ensures { option_map (λ r. (r.0, r.1.now)) result ≡ param_at text.now }
{
    if starts_with_digit(text) {
        let Some((n, rest)) = constant_at(text) else {
            return None;
        };
        return Some((Param::Fixed(n), rest));
    }
    let Some((name, rest)) = name_at(text) else {
        return None;
    };
    Some((Param::Named(name), rest))
}

// The step of a DO, or nothing.
#[tactic(auto, unfolding(crate::specs::Statements::step_at))]
fn step_at(text: &[u8]) -> Option<(Option<Param>, &[u8])>
    ensures { option_map (λ r. (r.0, r.1.now)) result ≡ step_at text.now }
{
    if !begins(text, b",") {
        return Some((None, text));
    }
    let Some((param, rest)) = param_at(&text[1..]) else {
        return None;
    };
    Some((Some(param), rest))
}

// Behind `DO`.
#[tactic(auto, unfolding(crate::specs::Statements::do_of))]
fn do_of(text: &[u8]) -> Result<Stmt, Lack>
    ensures { Gives (λ s. s) result (do_of text.now) }
{
    let Some((label, rest)) = label_at(text) else {
        return Err(Lack::Spelling);
    };
    let Some((name, rest)) = name_at(rest) else {
        return Err(Lack::Spelling);
    };
    let Some(rest) = after(rest, b"=") else {
        return Err(Lack::Spelling);
    };
    let Some((first, rest)) = param_at(rest) else {
        return Err(Lack::Spelling);
    };
    let Some(behind_first) = after(rest, b",") else {
        return Err(Lack::Spelling);
    };
    let Some((last, rest)) = param_at(behind_first) else {
        return Err(Lack::Spelling);
    };
    let Some((by, rest)) = step_at(rest) else {
        return Err(Lack::Spelling);
    };
    if !ends(rest) {
        return Err(Lack::Spelling);
    }
    Ok(Stmt::Do(label, name, first, last, by))
}

// The actuals of a CALL.
#[tactic(auto, unfolding(crate::specs::Statements::actuals_at))]
fn actuals_at(alloc: Global, rounds: usize, text: &[u8]) -> Result<(List<Expr>, &[u8]), Lack>
    ensures { Gives (λ r. (r.0, r.1.now)) result (actuals_at rounds text.now) }
{
    if !begins(text, b"(") {
        return Ok((List::from_vec(Vec::new(alloc)), text));
    }
    bracketed_arguments(alloc, rounds, &text[1..])
}

// Behind `CALL`.
#[tactic(auto, unfolding(crate::specs::Statements::call))]
fn call(alloc: Global, rounds: usize, text: &[u8]) -> Result<Stmt, Lack>
    ensures { Gives (λ s. s) result (call rounds text.now) }
{
    let Some((name, rest)) = name_at(text) else {
        return Err(Lack::Spelling);
    };
    let (actuals, rest) = actuals_at(alloc, rounds, rest)?;
    if !ends(rest) {
        return Err(Lack::Spelling);
    }
    Ok(Stmt::Call(name, actuals))
}

// A condition and its closing bracket.
#[tactic(auto, unfolding(crate::specs::Statements::condition_at))]
fn condition_at(alloc: Global, rounds: usize, text: &[u8]) -> Result<(Expr, &[u8]), Lack>
    ensures { Gives (λ r. (r.0, r.1.now)) result (condition_at rounds text.now) }
{
    let (e, rest) = parse(alloc, rounds, 0, text)?;
    let Some(rest) = after(rest, b")") else {
        return Err(Lack::Spelling);
    };
    Ok((e, rest))
}

// Three labels behind a condition.
#[tactic(auto, unfolding(crate::specs::Statements::arith_if))]
fn arith_if(e: Expr, text: &[u8]) -> Result<Stmt, Lack>
    ensures { Gives (λ s. s) result (arith_if e text.now) }
{
    let Some((negative, rest)) = label_at(text) else {
        return Err(Lack::Spelling);
    };
    let Some(rest) = after(rest, b",") else {
        return Err(Lack::Spelling);
    };
    let Some((zero, rest)) = label_at(rest) else {
        return Err(Lack::Spelling);
    };
    let Some(rest) = after(rest, b",") else {
        return Err(Lack::Spelling);
    };
    let Some((positive, rest)) = label_at(rest) else {
        return Err(Lack::Spelling);
    };
    if !ends(rest) {
        return Err(Lack::Spelling);
    }
    Ok(Stmt::ArithIf(e, negative, zero, positive))
}

// The whole text is the word.
fn is_word(text: &[u8], word: &[u8]) -> bool
    ensures { result ≡ is_word word.now text.now }
{
    begins(text, word) && text.len() == word.len()
}

// What a logical IF may carry, but assignments and IFs.
#[tactic(auto, unfolding(crate::specs::Statements::plain))]
pub(crate) fn plain(alloc: Global, rounds: usize, text: &[u8]) -> Result<Stmt, Lack>
    ensures { Gives (λ s. s) result (plain rounds text.now) }
{
    if begins(text, b"GOTO") {
        return jump(alloc, rounds, &text[4..]);
    }
    if begins(text, b"CALL") {
        return call(alloc, rounds, &text[4..]);
    }
    if is_word(text, b"CONTINUE") {
        return Ok(Stmt::Continue);
    }
    if is_word(text, b"RETURN") {
        return Ok(Stmt::Return);
    }
    Err(Lack::Spelling)
}

#[tactic(auto, unfolding(crate::specs::Statements::carried_if))]
fn carried_if(alloc: Global, rounds: usize, text: &[u8]) -> Result<Stmt, Lack>
    ensures { Gives (λ s. s) result (carried_if rounds text.now) }
{
    let (e, rest) = condition_at(alloc, rounds, text)?;
    arith_if(e, rest)
}

// What a logical IF carries.
#[tactic(auto, unfolding(crate::specs::Statements::carried))]
fn carried(alloc: Global, rounds: usize, text: &[u8]) -> Result<Stmt, Lack>
    ensures { Gives (λ s. s) result (carried rounds text.now) }
{
    match assign(alloc, rounds, text) {
        Ok(stmt) => return Ok(stmt),
        Err(Lack::Memory) => return Err(Lack::Memory),
        Err(Lack::Spelling) => {}
    }
    if begins(text, b"IF(") {
        return carried_if(alloc, rounds, &text[3..]);
    }
    plain(alloc, rounds, text)
}

pub(crate) fn is_77(dialect: Dialect) -> bool
    ensures { result ≡ is_77 dialect }
{
    match dialect {
        Dialect::Common => false,
        Dialect::SeventySeven => true,
    }
}

fn boxed(alloc: Global, stmt: Stmt) -> Result<Boxed<Stmt>, Lack>
    ensures ok { IfOk result (λ b. b ≡ stmt) }
    ensures err { IfErr result (λ l. l ≡ Lack.Memory) }
{
    match Boxed::new(alloc, stmt) {
        Ok(made) => Ok(made),
        Err(_) => Err(Lack::Memory),
    }
}

// Behind the condition of an IF.
#[tactic(auto, unfolding(crate::specs::Statements::behind_condition))]
fn behind_condition(
    alloc: Global,
    dialect: Dialect,
    rounds: usize,
    e: Expr,
    text: &[u8],
) -> Result<Stmt, Lack>
    ensures { Gives (λ s. s) result (behind_condition dialect rounds e text.now) }
{
    if starts_with_digit(text) {
        return arith_if(e, text);
    }
    if is_77(dialect) && is_word(text, b"THEN") {
        return Ok(Stmt::BlockIf(e));
    }
    let stmt = carried(alloc, rounds, text)?;
    let stmt = boxed(alloc, stmt)?;
    Ok(Stmt::LogicalIf(e, stmt))
}

// Behind `IF(`.
#[tactic(auto, unfolding(crate::specs::Statements::if_of))]
fn if_of(alloc: Global, dialect: Dialect, rounds: usize, text: &[u8]) -> Result<Stmt, Lack>
    ensures { Gives (λ s. s) result (if_of dialect rounds text.now) }
{
    let (e, rest) = condition_at(alloc, rounds, text)?;
    behind_condition(alloc, dialect, rounds, e, rest)
}

// Behind `ELSEIF(`.
#[tactic(auto, unfolding(crate::specs::Statements::else_if))]
fn else_if(alloc: Global, rounds: usize, text: &[u8]) -> Result<Stmt, Lack>
    ensures { Gives (λ s. s) result (else_if rounds text.now) }
{
    let (e, rest) = condition_at(alloc, rounds, text)?;
    if !is_word(rest, b"THEN") {
        return Err(Lack::Spelling);
    }
    Ok(Stmt::ElseIf(e))
}

#[tactic(auto, unfolding(crate::specs::Statements::block_part))]
fn block_part(alloc: Global, rounds: usize, text: &[u8]) -> Result<Stmt, Lack>
    ensures { Gives (λ s. s) result (block_part rounds text.now) }
{
    if is_word(text, b"ELSE") {
        return Ok(Stmt::Else);
    }
    if is_word(text, b"ENDIF") {
        return Ok(Stmt::EndIf);
    }
    if begins(text, b"ELSEIF(") {
        return else_if(alloc, rounds, &text[7..]);
    }
    Err(Lack::Spelling)
}

// What is no assignment, no head, no declaration, and nothing that a logical IF may carry.
#[tactic(auto, unfolding(crate::specs::Statements::other))]
pub(crate) fn other(
    alloc: Global,
    dialect: Dialect,
    rounds: usize,
    text: &[u8],
) -> Result<Stmt, Lack>
    ensures { Gives (λ s. s) result (other dialect rounds text.now) }
{
    if begins(text, b"IF(") {
        return if_of(alloc, dialect, rounds, &text[3..]);
    }
    if begins(text, b"DO") {
        return do_of(&text[2..]);
    }
    if is_word(text, b"END") {
        return Ok(Stmt::End);
    }
    if is_77(dialect) {
        return block_part(alloc, rounds, text);
    }
    Err(Lack::Spelling)
}
