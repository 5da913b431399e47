// The calls in statements, in the order of the text.
ghost use Rattle.std.specs.Prelude.{◌≡◌, [], ◌∷◌, ◌++◌, flat_map, IfOk, OnOk};
ghost use Rattle.fort_model.specs.CallFacts.{sites_of_lines, sites_of_unit};
ghost use Rattle.fort_model.specs.Calls.{own_site, sites_in, sites_of};
ghost use Rattle.fort_syntax.specs.Names.{applied};

use crate::book::Book;
use crate::site::Site;
use edge_io::NoMemory;
use fort_syntax::{Expr, Name, Stmt};
use std::alloc::Global;

fn push<'a>(
    all: &mut Vec<Site<'a>>,
    reference: bool,
    callee: Name,
    actuals: &'a [Expr],
) -> Result<(), NoMemory>
    ensures { OnOk result (all.new.items ≡ all.old.items ++ record {
      reference = reference;
      callee = callee;
      actuals = actuals.now;
    } ∷ []) }
{
    match all.push(Site::new(reference, callee, actuals)) {
        Ok(()) => Ok(()),
        Err(_) => Err(NoMemory),
    }
}

/// Adds what a name with expressions in brackets calls itself.
fn push_own<'a>(
    book: &Book,
    all: &mut Vec<Site<'a>>,
    name: &Name,
    actuals: &'a [Expr],
) -> Result<(), NoMemory>
    ensures { OnOk result (all.new.items ≡ all.old.items ++ own_site
        (applied book.now.unit.now name.now) name.now actuals.now) }
{
    if book.is_call(name) {
        push(all, true, *name, actuals)
    } else {
        Ok(())
    }
}

/// Adds the calls in an expression.
#[cycle(sites)]
#[tactic(auto, using(crate::proofs::Rows::in_paren, crate::proofs::Rows::in_pos, crate::proofs::Rows::in_neg, crate::proofs::Rows::in_not))]
fn push_expr<'a>(book: &Book, all: &mut Vec<Site<'a>>, e: &'a Expr) -> Result<(), NoMemory>
    ensures { OnOk result (all.new.items ≡ all.old.items ++ sites_in book.now.unit.now e.now) }
{
    match e {
        Expr::Const(_) | Expr::Truth(_) | Expr::Var(_) => Ok(()),
        Expr::Apply(f, args) => {
            push_own(book, all, f, args.as_slice())?;
            push_args(book, all, args.as_slice())
        }
        Expr::Paren(a) => push_expr(book, all, a.get()),
        Expr::Pos(a) => push_expr(book, all, a.get()),
        Expr::Neg(a) => push_expr(book, all, a.get()),
        Expr::Power(a, _) => push_expr(book, all, a.get()),
        Expr::Not(a) => push_expr(book, all, a.get()),
        Expr::Bin(_, a, b) => {
            push_expr(book, all, a.get())?;
            push_expr(book, all, b.get())
        }
        Expr::Rel(_, a, b) => {
            push_expr(book, all, a.get())?;
            push_expr(book, all, b.get())
        }
        Expr::And(a, b) => {
            push_expr(book, all, a.get())?;
            push_expr(book, all, b.get())
        }
        Expr::Or(a, b) => {
            push_expr(book, all, a.get())?;
            push_expr(book, all, b.get())
        }
    }
}

#[cycle(sites)]
fn push_args<'a>(book: &Book, all: &mut Vec<Site<'a>>, args: &'a [Expr]) -> Result<(), NoMemory>
    ensures { OnOk result (all.new.items ≡ all.old.items ++ flat_map (sites_in book.now.unit.now) args.now) }
{
    for e in args {
        push_expr(book, all, e)?;
    }
    Ok(())
}

fn push_stmt<'a>(book: &Book, all: &mut Vec<Site<'a>>, stmt: &'a Stmt) -> Result<(), NoMemory>
    ensures { OnOk result (all.new.items ≡ all.old.items ++ sites_of book.now.unit.now stmt.now) }
{
    match stmt {
        Stmt::Assign(left, right) => {
            push_expr(book, all, left)?;
            push_expr(book, all, right)
        }
        Stmt::ArithIf(e, ..) | Stmt::BlockIf(e) | Stmt::ElseIf(e) => push_expr(book, all, e),
        Stmt::LogicalIf(e, carried) => {
            push_expr(book, all, e)?;
            push_stmt(book, all, carried.get())
        }
        Stmt::Call(f, args) => {
            push(all, false, *f, args.as_slice())?;
            push_args(book, all, args.as_slice())
        }
        _ => Ok(()),
    }
}

/// The calls in a statement of the book's unit, in the order of the called names in the text.
pub fn sites_of_stmt<'a>(
    alloc: Global,
    book: &Book,
    stmt: &'a Stmt,
) -> Result<Vec<Site<'a>>, NoMemory>
    ensures { IfOk result (λ sites. sites.items ≡ sites_of book.now.unit.now stmt.now) }
{
    let mut all = Vec::new(alloc);
    push_stmt(book, &mut all, stmt)?;
    Ok(all)
}

/// The calls of the book's unit, in the order of the called names in the text.
pub fn sites_of_unit<'a>(alloc: Global, book: &Book<'a>) -> Result<Vec<Site<'a>>, NoMemory>
    ensures { IfOk result (λ sites. sites.items ≡ sites_of_unit book.now.unit.now) }
{
    let mut all = Vec::new(alloc);
    let lines = book.unit.lines.as_slice();
    for line in lines {
        push_stmt(book, &mut all, &line.stmt)?;
    }
    Ok(all)
}
