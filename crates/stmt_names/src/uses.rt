// The names in statements, in the order of the text.
ghost use Rattle.std.specs.Prelude.{◌≡◌, [], ◌∷◌, ◌++◌, flat_map, IfOk, OnOk};
ghost use Rattle.fort_syntax.specs.Uses.{occurrence, uses_in, uses_on_left, uses_of_param, uses_of_step, uses_of};
ghost use Rattle.fort_syntax.specs.Units.{items_by, names_in_item, names_used, names_in};
ghost use Rattle.stmt_names.specs.Usings.{use_by};

use crate::items::{items_by, names_in};
use crate::seen::{How, Seen};
use edge_io::{List, NoMemory};
use fort_syntax::{Expr, Name, Param, Plain, Stmt};
use std::alloc::Global;

fn push(all: &mut Vec<Seen>, name: Name, how: &How) -> Result<(), NoMemory>
    ensures { OnOk result (all.new.items ≡ all.old.items ++ occurrence name (use_by how.now) ∷ []) }
{
    match all.push(Seen::new(name, *how)) {
        Ok(()) => Ok(()),
        Err(_) => Err(NoMemory),
    }
}

/// Adds the names in an expression, which is itself read, or is an argument or an actual.
#[cycle(uses)]
#[tactic(auto, using(crate::proofs::Rows::in_paren, crate::proofs::Rows::in_pos, crate::proofs::Rows::in_neg, crate::proofs::Rows::in_not))]
fn push_expr(all: &mut Vec<Seen>, how: &How, e: &Expr) -> Result<(), NoMemory>
    ensures { OnOk result (all.new.items ≡ all.old.items ++ uses_in (use_by how.now) e.now) }
{
    match e {
        Expr::Const(_) | Expr::Truth(_) => Ok(()),
        Expr::Var(x) => push(all, *x, how),
        Expr::Apply(f, args) => {
            push(all, *f, &How::Applied(args.as_slice().len()))?;
            push_args(all, &How::Argument(*f), args.as_slice())
        }
        Expr::Paren(a) => push_expr(all, &How::Read, a.get()),
        Expr::Pos(a) => push_expr(all, &How::Read, a.get()),
        Expr::Neg(a) => push_expr(all, &How::Read, a.get()),
        Expr::Power(a, _) => push_expr(all, &How::Read, a.get()),
        Expr::Not(a) => push_expr(all, &How::Read, a.get()),
        Expr::Bin(_, a, b) => {
            push_expr(all, &How::Read, a.get())?;
            push_expr(all, &How::Read, b.get())
        }
        Expr::Rel(_, a, b) => {
            push_expr(all, &How::Read, a.get())?;
            push_expr(all, &How::Read, b.get())
        }
        Expr::And(a, b) => {
            push_expr(all, &How::Read, a.get())?;
            push_expr(all, &How::Read, b.get())
        }
        Expr::Or(a, b) => {
            push_expr(all, &How::Read, a.get())?;
            push_expr(all, &How::Read, b.get())
        }
    }
}

#[cycle(uses)]
fn push_args(all: &mut Vec<Seen>, how: &How, args: &[Expr]) -> Result<(), NoMemory>
    ensures { OnOk result (all.new.items ≡ all.old.items ++ flat_map (uses_in (use_by how.now)) args.now) }
{
    for e in args {
        push_expr(all, how, e)?;
    }
    Ok(())
}

fn push_left(all: &mut Vec<Seen>, left: &Expr) -> Result<(), NoMemory>
    ensures { OnOk result (all.new.items ≡ all.old.items ++ uses_on_left left.now) }
{
    match left {
        Expr::Var(x) => push(all, *x, &How::Assigned),
        Expr::Apply(f, args) => {
            push(all, *f, &How::Element(args.as_slice().len()))?;
            push_args(all, &How::Read, args.as_slice())
        }
        _ => Ok(()),
    }
}

fn push_param(all: &mut Vec<Seen>, param: &Param) -> Result<(), NoMemory>
    ensures { OnOk result (all.new.items ≡ all.old.items ++ uses_of_param param.now) }
{
    match param {
        Param::Fixed(_) => Ok(()),
        Param::Named(x) => push(all, *x, &How::Read),
    }
}

fn push_step(all: &mut Vec<Seen>, step: &Option<Param>) -> Result<(), NoMemory>
    ensures { OnOk result (all.new.items ≡ all.old.items ++ uses_of_step step.now) }
{
    match step {
        None => Ok(()),
        Some(param) => push_param(all, param),
    }
}

fn push_stmt(all: &mut Vec<Seen>, stmt: &Stmt) -> Result<(), NoMemory>
    ensures { OnOk result (all.new.items ≡ all.old.items ++ uses_of stmt.now) }
{
    match stmt {
        Stmt::Assign(left, right) => {
            push_left(all, left)?;
            push_expr(all, &How::Read, right)
        }
        Stmt::Computed(_, x) => push(all, *x, &How::Read),
        Stmt::ArithIf(e, ..) | Stmt::BlockIf(e) | Stmt::ElseIf(e) => push_expr(all, &How::Read, e),
        Stmt::LogicalIf(e, carried) => {
            push_expr(all, &How::Read, e)?;
            push_stmt(all, carried.get())
        }
        Stmt::Do(_, x, first, last, step) => {
            push(all, *x, &How::Counted)?;
            push_param(all, first)?;
            push_param(all, last)?;
            push_step(all, step)
        }
        Stmt::Call(f, args) => {
            push(all, *f, &How::Called)?;
            push_args(all, &How::Actual, args.as_slice())
        }
        _ => Ok(()),
    }
}

/// The names in an executable statement.
pub fn uses_of(alloc: Global, stmt: &Stmt) -> Result<List<Seen>, NoMemory>
    ensures { IfOk result (λ uses. uses ≡ uses_of stmt.now) }
{
    let mut all = Vec::new(alloc);
    push_stmt(&mut all, stmt)?;
    Ok(List::from_vec(all))
}

fn names_used(alloc: Global, uses: &[Seen]) -> Result<List<Name>, NoMemory>
    ensures { IfOk result (λ names. names ≡ names_used uses.now) }
{
    let mut all = Vec::new(alloc);
    for seen in uses {
        if !seen.is_called() && all.push(seen.name()).is_err() {
            return Err(NoMemory);
        }
    }
    Ok(List::from_vec(all))
}

fn function_names(alloc: Global, f: Name, dummies: &[Name]) -> Result<List<Name>, NoMemory>
    ensures { IfOk result (λ names. names ≡ f ∷ dummies.now) }
{
    let mut all = Vec::new(alloc);
    if all.push(f).is_err() {
        return Err(NoMemory);
    }
    for name in dummies {
        if all.push(*name).is_err() {
            return Err(NoMemory);
        }
    }
    Ok(List::from_vec(all))
}

fn names_declared(alloc: Global, stmt: &Stmt) -> Result<List<Name>, NoMemory>
    ensures { IfOk result (λ names. names ≡ flat_map names_in_item (items_by stmt.now)) }
{
    let Ok(items) = items_by(alloc, stmt) else {
        return Err(NoMemory);
    };
    names_in(alloc, items.as_slice())
}

fn names_performed(alloc: Global, stmt: &Stmt) -> Result<List<Name>, NoMemory>
    ensures { IfOk result (λ names. names ≡ names_used (uses_of stmt.now)) }
{
    let Ok(uses) = uses_of(alloc, stmt) else {
        return Err(NoMemory);
    };
    names_used(alloc, uses.as_slice())
}

/// The names in a statement but those of subroutines and blocks.
pub fn names_of_stmt(alloc: Global, stmt: &Stmt) -> Result<List<Name>, NoMemory>
    ensures { IfOk result (λ names. names ≡ names_in stmt.now) }
{
    match stmt {
        Stmt::Subroutine(_, dummies) => dummies.copied(alloc),
        Stmt::Function(_, f, dummies) => function_names(alloc, *f, dummies.as_slice()),
        Stmt::Declare(..) | Stmt::Dimension(_) | Stmt::Common(_) => names_declared(alloc, stmt),
        _ => names_performed(alloc, stmt),
    }
}
