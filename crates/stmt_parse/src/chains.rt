// Expressions: operators behind a first part.
ghost use Rattle.std.specs.Prelude.{◌≡◌, IfOk, IfErr};
ghost use Rattle.fort_syntax.specs.Spelled.{binding};
ghost use Rattle.stmt_parse.specs.Parsing.{Gives, joined, takes, takes_power, arguments, bracketed_arguments, named, bracket, primary, front, climb, parse};

use crate::parts::{joint_at, left_strength, power_at, right_strength, strength};
use crate::tokens::{after, begins, constant_at, name_at, starts_with_digit};
use crate::{Joint, Lack};
use edge_io::{Boxed, List};
use fort_syntax::{BinOp, Expr, Name};
use std::alloc::Global;

pub(crate) fn boxed(alloc: Global, e: Expr) -> Result<Boxed<Expr>, Lack>
    ensures ok { IfOk result (λ b. b ≡ e) }
    ensures err { IfErr result (λ l. l ≡ Lack.Memory) }
{
    match Boxed::new(alloc, e) {
        Ok(made) => Ok(made),
        Err(_) => Err(Lack::Memory),
    }
}

// How tightly an expression is bound.
pub(crate) fn binding(e: &Expr) -> u8
    ensures { result ≡ binding e.now }
{
    match e {
        Expr::Or(_, _) => 0,
        Expr::And(_, _) => 1,
        Expr::Not(_) => 2,
        Expr::Rel(_, _, _) => 3,
        Expr::Pos(_) | Expr::Neg(_) => 4,
        Expr::Bin(o, _, _) => match o {
            BinOp::Add | BinOp::Sub => 4,
            BinOp::Mul | BinOp::Div => 5,
        },
        Expr::Power(_, _) => 6,
        _ => 7,
    }
}

// The expression of an operator.
pub(crate) fn joined(alloc: Global, joint: Joint, a: Expr, b: Expr) -> Result<Expr, Lack>
    ensures ok { IfOk result (λ e. e ≡ joined joint a b) }
    ensures err { IfErr result (λ l. l ≡ Lack.Memory) }
{
    let a = boxed(alloc, a)?;
    let b = boxed(alloc, b)?;
    Ok(match joint {
        Joint::Or => Expr::Or(a, b),
        Joint::And => Expr::And(a, b),
        Joint::Rel(o) => Expr::Rel(o, a, b),
        Joint::Bin(o) => Expr::Bin(o, a, b),
    })
}

// A part takes the operator behind it.
pub(crate) fn takes(k: u8, e: &Expr, joint: Joint) -> bool
    ensures { result ≡ takes k e.now joint }
{
    k <= strength(joint) && left_strength(joint) <= binding(e)
}

pub(crate) fn takes_power(k: u8, e: &Expr) -> bool
    ensures { result ≡ takes_power k e.now }
{
    k <= 6 && 7 <= binding(e)
}
