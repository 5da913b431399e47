// Expressions as plain data.
ghost use Rattle.std.specs.Prelude.{◌≡◌, ◌↔◌, IfOk, IsTrue};

use crate::plain::boxed;
use crate::{Expr, Plain};
use edge_io::{Boxed, List, NoMemory};
use std::alloc::Global;

impl Plain for Expr {
    fn copied(&self, alloc: Global) -> Result<Expr, NoMemory> {
        copied_expr(alloc, self)
    }

    fn is_same(&self, other: &Expr) -> bool {
        is_same_expr(self, other)
    }
}

#[cycle(copied)]
fn copied_expr(alloc: Global, e: &Expr) -> Result<Expr, NoMemory>
    ensures { IfOk result (λ c. c ≡ e.now) }
{
    match e {
        Expr::Const(n) => Ok(Expr::Const(*n)),
        Expr::Truth(b) => Ok(Expr::Truth(*b)),
        Expr::Var(name) => Ok(Expr::Var(*name)),
        Expr::Apply(name, args) => Ok(Expr::Apply(*name, copied_args(alloc, args.as_slice())?)),
        Expr::Paren(a) => Ok(Expr::Paren(copied_part(alloc, a)?)),
        Expr::Pos(a) => Ok(Expr::Pos(copied_part(alloc, a)?)),
        Expr::Neg(a) => Ok(Expr::Neg(copied_part(alloc, a)?)),
        Expr::Power(a, n) => Ok(Expr::Power(copied_part(alloc, a)?, *n)),
        Expr::Bin(op, a, b) => Ok(Expr::Bin(*op, copied_part(alloc, a)?, copied_part(alloc, b)?)),
        Expr::Rel(op, a, b) => Ok(Expr::Rel(*op, copied_part(alloc, a)?, copied_part(alloc, b)?)),
        Expr::Not(a) => Ok(Expr::Not(copied_part(alloc, a)?)),
        Expr::And(a, b) => Ok(Expr::And(copied_part(alloc, a)?, copied_part(alloc, b)?)),
        Expr::Or(a, b) => Ok(Expr::Or(copied_part(alloc, a)?, copied_part(alloc, b)?)),
    }
}

#[cycle(copied)]
fn copied_part(alloc: Global, e: &Boxed<Expr>) -> Result<Boxed<Expr>, NoMemory>
    ensures { IfOk result (λ c. c ≡ e.now) }
{
    let e = copied_expr(alloc, e.get())?;
    boxed(alloc, e)
}

#[cycle(copied)]
fn copied_args(alloc: Global, args: &[Expr]) -> Result<List<Expr>, NoMemory>
    ensures { IfOk result (λ c. c ≡ args.now) }
{
    let mut all = Vec::new(alloc);
    for e in args {
        let e = copied_expr(alloc, e)?;
        if all.push(e).is_err() {
            return Err(NoMemory);
        }
    }
    Ok(List::from_vec(all))
}

#[cycle(same)]
fn is_same_expr(e: &Expr, other: &Expr) -> bool
    ensures { IsTrue result ↔ (e.now ≡ other.now) }
{
    match (e, other) {
        (Expr::Const(m), Expr::Const(n)) => *m == *n,
        (Expr::Truth(a), Expr::Truth(b)) => *a == *b,
        (Expr::Var(a), Expr::Var(b)) => *a == *b,
        (Expr::Apply(f, xs), Expr::Apply(g, ys)) => {
            *f == *g && are_same_args(xs.as_slice(), ys.as_slice())
        }
        (Expr::Paren(a), Expr::Paren(b)) => is_same_expr(a.get(), b.get()),
        (Expr::Pos(a), Expr::Pos(b)) => is_same_expr(a.get(), b.get()),
        (Expr::Neg(a), Expr::Neg(b)) => is_same_expr(a.get(), b.get()),
        (Expr::Power(a, m), Expr::Power(b, n)) => *m == *n && is_same_expr(a.get(), b.get()),
        (Expr::Bin(o, a, b), Expr::Bin(p, c, d)) => {
            *o == *p && is_same_expr(a.get(), c.get()) && is_same_expr(b.get(), d.get())
        }
        (Expr::Rel(o, a, b), Expr::Rel(p, c, d)) => {
            *o == *p && is_same_expr(a.get(), c.get()) && is_same_expr(b.get(), d.get())
        }
        (Expr::Not(a), Expr::Not(b)) => is_same_expr(a.get(), b.get()),
        (Expr::And(a, b), Expr::And(c, d)) => {
            is_same_expr(a.get(), c.get()) && is_same_expr(b.get(), d.get())
        }
        (Expr::Or(a, b), Expr::Or(c, d)) => {
            is_same_expr(a.get(), c.get()) && is_same_expr(b.get(), d.get())
        }
        _ => false,
    }
}

#[cycle(same)]
fn are_same_args(xs: &[Expr], ys: &[Expr]) -> bool
    ensures { IsTrue result ↔ (xs.now ≡ ys.now) }
{
    if xs.len() != ys.len() {
        return false;
    }
    for i in 0..xs.len() {
        if !is_same_expr(&xs[i], &ys[i]) {
            return false;
        }
    }
    true
}
