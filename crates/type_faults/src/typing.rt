// The types of expressions, and the forms of subscripts.
ghost use Rattle.std.specs.Prelude.{◌≡◌, ◌&&◌};
ghost use Rattle.std.specs.List.{list_all};
ghost use Rattle.fort_syntax.specs.TypeRules.{type_applied, type_of, gives_integer, gives_logical, are_fit_arguments, has_fit_operands};
ghost use Rattle.unit_scope.specs.Scoping.{scope_by};

use fort_syntax::{Expr, Name, Sort};
use unit_scope::Scoped;

fn type_applied(scope: &Scoped, f: &Name) -> Option<Sort>
    ensures { result ≡ type_applied (scope_by scope.now) f.now }
{
    if scope.is_intrinsic(f) {
        Some(Sort::Integer)
    } else {
        scope.sort(f)
    }
}

/// The type of an expression, by its form and its names.
#[tactic(auto, using(crate::proofs::Typings::type_paren))]
pub(crate) fn type_of(scope: &Scoped, e: &Expr) -> Option<Sort>
    ensures { result ≡ type_of (scope_by scope.now) e.now }
{
    match e {
        Expr::Const(_) => Some(Sort::Integer),
        Expr::Truth(_) => Some(Sort::Logical),
        Expr::Var(x) => scope.sort(x),
        Expr::Apply(f, _) => type_applied(scope, f),
        Expr::Paren(a) => type_of(scope, a.get()),
        Expr::Pos(_) => Some(Sort::Integer),
        Expr::Neg(_) => Some(Sort::Integer),
        Expr::Power(..) => Some(Sort::Integer),
        Expr::Bin(..) => Some(Sort::Integer),
        Expr::Rel(..) => Some(Sort::Logical),
        Expr::Not(_) => Some(Sort::Logical),
        Expr::And(..) => Some(Sort::Logical),
        Expr::Or(..) => Some(Sort::Logical),
    }
}

pub(crate) fn gives_integer(scope: &Scoped, e: &Expr) -> bool
    ensures { result ≡ gives_integer (scope_by scope.now) e.now }
{
    match type_of(scope, e) {
        Some(Sort::Integer) => true,
        _ => false,
    }
}

pub(crate) fn gives_logical(scope: &Scoped, e: &Expr) -> bool
    ensures { result ≡ gives_logical (scope_by scope.now) e.now }
{
    match type_of(scope, e) {
        Some(Sort::Logical) => true,
        _ => false,
    }
}

fn all_integers(scope: &Scoped, args: &[Expr]) -> bool
    ensures { result ≡ list_all (gives_integer (scope_by scope.now)) args.now }
{
    for e in args {
        if !gives_integer(scope, e) {
            return false;
        }
    }
    true
}

fn are_fit_arguments(scope: &Scoped, f: &Name, args: &[Expr]) -> bool
    ensures { result ≡ are_fit_arguments (scope_by scope.now) f.now args.now }
{
    !(scope.is_array(f) || scope.is_intrinsic(f)) || all_integers(scope, args)
}

fn both_integers(scope: &Scoped, a: &Expr, b: &Expr) -> bool
    ensures { result ≡ (gives_integer (scope_by scope.now) a.now && gives_integer
        (scope_by scope.now) b.now) }
{
    gives_integer(scope, a) && gives_integer(scope, b)
}

fn both_logical(scope: &Scoped, a: &Expr, b: &Expr) -> bool
    ensures { result ≡ (gives_logical (scope_by scope.now) a.now && gives_logical
        (scope_by scope.now) b.now) }
{
    gives_logical(scope, a) && gives_logical(scope, b)
}

#[tactic(auto, using(crate::proofs::Typings::fit_apply, crate::proofs::Typings::fit_pos, crate::proofs::Typings::fit_neg, crate::proofs::Typings::fit_power, crate::proofs::Typings::fit_bin, crate::proofs::Typings::fit_rel, crate::proofs::Typings::fit_not, crate::proofs::Typings::fit_and, crate::proofs::Typings::fit_or))]
/// Whether the operands of an expression's own operator have the types that it demands.
pub(crate) fn has_fit_operands(scope: &Scoped, e: &Expr) -> bool
    ensures { result ≡ has_fit_operands (scope_by scope.now) e.now }
{
    match e {
        Expr::Apply(f, args) => are_fit_arguments(scope, f, args.as_slice()),
        Expr::Pos(a) => gives_integer(scope, a.get()),
        Expr::Neg(a) => gives_integer(scope, a.get()),
        Expr::Power(a, _) => gives_integer(scope, a.get()),
        Expr::Bin(_, a, b) => both_integers(scope, a.get(), b.get()),
        Expr::Rel(_, a, b) => both_integers(scope, a.get(), b.get()),
        Expr::Not(a) => gives_logical(scope, a.get()),
        Expr::And(a, b) => both_logical(scope, a.get(), b.get()),
        Expr::Or(a, b) => both_logical(scope, a.get(), b.get()),
        Expr::Const(_) => true,
        Expr::Truth(_) => true,
        Expr::Var(_) => true,
        Expr::Paren(_) => true,
    }
}
