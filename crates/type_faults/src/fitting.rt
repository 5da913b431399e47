// What the types of expressions are to be.
ghost use Rattle.std.specs.Prelude.{◌≡◌, ◌&&◌};
ghost use Rattle.std.specs.List.{list_all};
ghost use Rattle.fort_syntax.specs.TypeRules.{is_fit_param, is_fit_step, has_fit_places, is_well_typed, all_plain_subscripts};
ghost use Rattle.unit_scope.specs.Scoping.{scope_by};
ghost use Rattle.type_faults.specs.Parts.{test_by, holds, stmt_holds, type_scan};

use crate::subscripts::has_plain_subscripts;
use crate::typing::{gives_integer, gives_logical, has_fit_operands, type_of};
use fort_syntax::{Expr, Fault, Line, Param, Rule, Stmt};
use unit_scope::{Scoped, same_sorts};

/// What is asked of an expression.
#[derive(Clone, Copy, Debug, PartialEq, Eq, Hash)]
pub enum Check {
    /// Its operands have the types that its operator demands.
    Operands,
    /// Its subscripts have the plain forms.
    Subscripts,
}

fn passes(check: Check, scope: &Scoped, e: &Expr) -> bool
    ensures { result ≡ test_by check (scope_by scope.now) e.now }
{
    match check {
        Check::Operands => has_fit_operands(scope, e),
        Check::Subscripts => has_plain_subscripts(scope, e),
    }
}

fn both(a: bool, b: bool) -> bool
    ensures { result ≡ (a && b) }
{
    a && b
}

fn fits(check: Check, scope: &Scoped, e: &Expr, ok: bool) -> bool
    ensures { result ≡ (ok && test_by check (scope_by scope.now) e.now) }
{
    ok && passes(check, scope, e)
}

/// Whether all was well before, and an expression passes a test with all expressions in it.
#[cycle(fit)]
fn parts_fit(check: Check, scope: &Scoped, e: &Expr, ok: bool) -> bool
    ensures { result ≡ (ok && holds (test_by check (scope_by scope.now)) e.now) }
{
    let here = fits(check, scope, e, ok);
    match e {
        Expr::Const(_) => here,
        Expr::Truth(_) => here,
        Expr::Var(_) => here,
        Expr::Apply(_, args) => args_fit(check, scope, args.as_slice(), here),
        Expr::Paren(a) => parts_fit(check, scope, a.get(), here),
        Expr::Pos(a) => parts_fit(check, scope, a.get(), here),
        Expr::Neg(a) => parts_fit(check, scope, a.get(), here),
        Expr::Power(a, _) => parts_fit(check, scope, a.get(), here),
        Expr::Not(a) => parts_fit(check, scope, a.get(), here),
        Expr::Bin(_, a, b) => parts_fit(
            check,
            scope,
            b.get(),
            parts_fit(check, scope, a.get(), here),
        ),
        Expr::Rel(_, a, b) => parts_fit(
            check,
            scope,
            b.get(),
            parts_fit(check, scope, a.get(), here),
        ),
        Expr::And(a, b) => parts_fit(
            check,
            scope,
            b.get(),
            parts_fit(check, scope, a.get(), here),
        ),
        Expr::Or(a, b) => parts_fit(
            check,
            scope,
            b.get(),
            parts_fit(check, scope, a.get(), here),
        ),
    }
}

#[cycle(fit)]
fn args_fit(check: Check, scope: &Scoped, args: &[Expr], ok: bool) -> bool
    ensures { result ≡ (ok && list_all (holds (test_by check (scope_by scope.now))) args.now) }
{
    let mut all = ok;
    for e in args {
        all = parts_fit(check, scope, e, all);
    }
    all
}

fn both_fit(check: Check, scope: &Scoped, a: &Expr, b: &Expr) -> bool
    ensures { result ≡ (holds (test_by check (scope_by scope.now)) a.now && holds
        (test_by check (scope_by scope.now)) b.now) }
{
    parts_fit(check, scope, a, true) && parts_fit(check, scope, b, true)
}

fn stmt_fits(check: Check, scope: &Scoped, stmt: &Stmt) -> bool
    ensures { result ≡ stmt_holds (test_by check (scope_by scope.now)) stmt.now }
{
    match stmt {
        Stmt::Assign(left, right) => both_fit(check, scope, left, right),
        Stmt::ArithIf(e, ..) => parts_fit(check, scope, e, true),
        Stmt::LogicalIf(e, carried) => both(
            parts_fit(check, scope, e, true),
            stmt_fits(check, scope, carried.get()),
        ),
        Stmt::Call(_, args) => args_fit(check, scope, args.as_slice(), true),
        Stmt::BlockIf(e) => parts_fit(check, scope, e, true),
        Stmt::ElseIf(e) => parts_fit(check, scope, e, true),
        _ => true,
    }
}

fn is_fit_param(scope: &Scoped, param: &Param) -> bool
    ensures { result ≡ is_fit_param (scope_by scope.now) param.now }
{
    match param {
        Param::Fixed(_) => true,
        Param::Named(x) => scope.is_integer_scalar(x),
    }
}

fn is_fit_step(scope: &Scoped, step: &Option<Param>) -> bool
    ensures { result ≡ is_fit_step (scope_by scope.now) step.now }
{
    match step {
        None => true,
        Some(param) => is_fit_param(scope, param),
    }
}

/// Whether the expressions and names that are a statement's own have the types that it demands.
fn has_fit_places(scope: &Scoped, stmt: &Stmt) -> bool
    ensures { result ≡ has_fit_places (scope_by scope.now) stmt.now }
{
    match stmt {
        Stmt::Assign(left, right) => same_sorts(type_of(scope, left), type_of(scope, right)),
        Stmt::Computed(_, x) => scope.is_integer_scalar(x),
        Stmt::ArithIf(e, ..) => gives_integer(scope, e),
        Stmt::LogicalIf(e, carried) => both(
            gives_logical(scope, e),
            has_fit_places(scope, carried.get()),
        ),
        Stmt::Do(_, x, first, last, step) => {
            scope.is_integer_scalar(x)
                && is_fit_param(scope, first)
                && is_fit_param(scope, last)
                && is_fit_step(scope, step)
        }
        Stmt::BlockIf(e) => gives_logical(scope, e),
        Stmt::ElseIf(e) => gives_logical(scope, e),
        _ => true,
    }
}

/// Whether all that a statement holds has the type that its place demands.
#[tactic(auto, using(crate::proofs::Fittings::well_typed))]
fn is_well_typed(scope: &Scoped, stmt: &Stmt) -> bool
    ensures { result ≡ is_well_typed (scope_by scope.now) stmt.now }
{
    has_fit_places(scope, stmt) && stmt_fits(Check::Operands, scope, stmt)
}

/// Whether all subscripts in a statement have the plain forms.
#[tactic(auto, using(crate::proofs::Fittings::all_plain))]
pub fn all_plain_subscripts(scope: &Scoped, stmt: &Stmt) -> bool
    ensures { result ≡ all_plain_subscripts (scope_by scope.now) stmt.now }
{
    stmt_fits(Check::Subscripts, scope, stmt)
}

pub(crate) fn scan_types(scope: &Scoped, unit: &[Line]) -> Option<Fault>
    ensures { result ≡ type_scan (scope_by scope.now) unit.now }
{
    for i in 0..unit.len() {
        if !is_well_typed(scope, &unit[i].stmt) {
            return Some(Fault {
                rule: Rule::BadType,
                card: unit[i].card,
            });
        }
    }
    None
}
