// The names in an expression, in the order of the text.
ghost use Rattle.std.specs.Prelude.{◌≡◌, [], ◌∷◌, ◌++◌, flat_map, IfOk, OnOk};
ghost use Rattle.call_tests.specs.Mentioned.{names_in};

use edge_io::{List, NoMemory};
use fort_syntax::{Expr, Name};
use std::alloc::Global;

fn push(all: &mut Vec<Name>, name: Name) -> Result<(), NoMemory>
    ensures { OnOk result (all.new.items ≡ all.old.items ++ name ∷ []) }
{
    match all.push(name) {
        Ok(()) => Ok(()),
        Err(_) => Err(NoMemory),
    }
}

#[cycle(mentioned)]
#[tactic(auto, using(crate::proofs::Rows::in_paren, crate::proofs::Rows::in_pos, crate::proofs::Rows::in_neg, crate::proofs::Rows::in_not))]
fn push_expr(all: &mut Vec<Name>, e: &Expr) -> Result<(), NoMemory>
    ensures { OnOk result (all.new.items ≡ all.old.items ++ names_in e.now) }
{
    match e {
        Expr::Const(_) | Expr::Truth(_) => Ok(()),
        Expr::Var(x) => push(all, *x),
        Expr::Apply(f, args) => {
            push(all, *f)?;
            push_args(all, args.as_slice())
        }
        Expr::Paren(a) => push_expr(all, a.get()),
        Expr::Pos(a) => push_expr(all, a.get()),
        Expr::Neg(a) => push_expr(all, a.get()),
        Expr::Power(a, _) => push_expr(all, a.get()),
        Expr::Not(a) => push_expr(all, a.get()),
        Expr::Bin(_, a, b) => {
            push_expr(all, a.get())?;
            push_expr(all, b.get())
        }
        Expr::Rel(_, a, b) => {
            push_expr(all, a.get())?;
            push_expr(all, b.get())
        }
        Expr::And(a, b) => {
            push_expr(all, a.get())?;
            push_expr(all, b.get())
        }
        Expr::Or(a, b) => {
            push_expr(all, a.get())?;
            push_expr(all, b.get())
        }
    }
}

#[cycle(mentioned)]
fn push_args(all: &mut Vec<Name>, args: &[Expr]) -> Result<(), NoMemory>
    ensures { OnOk result (all.new.items ≡ all.old.items ++ flat_map names_in args.now) }
{
    for e in args {
        push_expr(all, e)?;
    }
    Ok(())
}

/// The names in an expression, each as often as it stands there: those of arrays and functions before their brackets, and
/// those in subscripts and arguments too.
pub fn names_in(alloc: Global, e: &Expr) -> Result<List<Name>, NoMemory>
    ensures { IfOk result (λ names. names ≡ names_in e.now) }
{
    let mut all = Vec::new(alloc);
    push_expr(&mut all, e)?;
    Ok(List::from_vec(all))
}
