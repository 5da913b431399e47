// The forms of subscripts.
ghost use Rattle.std.specs.Prelude.{◌≡◌, ◌&&◌, ◌||◌};
ghost use Rattle.std.specs.List.{list_all};
ghost use Rattle.fort_syntax.specs.TypeRules.{is_scalar_name, is_constant, is_sum_or_difference, is_product, is_multiple, is_plain_subscript, has_plain_subscripts};
ghost use Rattle.unit_scope.specs.Scoping.{scope_by};
ghost use Rattle.type_faults.specs.PlainForms.{multiple, plain, are_plain_arguments};

use fort_syntax::{BinOp, Expr, Name};
use unit_scope::Scoped;

fn is_scalar_name(scope: &Scoped, e: &Expr) -> bool
    ensures { result ≡ is_scalar_name (scope_by scope.now) e.now }
{
    match e {
        Expr::Var(x) => !scope.is_array(x),
        _ => false,
    }
}

fn is_constant(e: &Expr) -> bool
    ensures { result ≡ is_constant e.now }
{
    matches!(e, Expr::Const(_))
}

fn is_product(op: BinOp) -> bool
    ensures { result ≡ is_product op }
{
    matches!(op, BinOp::Mul)
}

fn is_sum_or_difference(op: BinOp) -> bool
    ensures { result ≡ is_sum_or_difference op }
{
    matches!(op, BinOp::Add | BinOp::Sub)
}

fn multiple(scope: &Scoped, op: BinOp, a: &Expr, b: &Expr) -> bool
    ensures { result ≡ multiple (scope_by scope.now) op a.now b.now }
{
    is_product(op) && is_constant(a) && is_scalar_name(scope, b)
}

fn is_multiple(scope: &Scoped, e: &Expr) -> bool
    ensures { result ≡ is_multiple (scope_by scope.now) e.now }
{
    match e {
        Expr::Bin(op, a, b) => multiple(scope, *op, a.get(), b.get()),
        _ => is_scalar_name(scope, e),
    }
}

fn plain(scope: &Scoped, op: BinOp, a: &Expr, b: &Expr) -> bool
    ensures { result ≡ plain (scope_by scope.now) op a.now b.now }
{
    multiple(scope, op, a, b)
        || (is_sum_or_difference(op) && is_multiple(scope, a) && is_constant(b))
}

fn is_plain_subscript(scope: &Scoped, e: &Expr) -> bool
    ensures { result ≡ is_plain_subscript (scope_by scope.now) e.now }
{
    match e {
        Expr::Const(_) => true,
        Expr::Bin(op, a, b) => plain(scope, *op, a.get(), b.get()),
        _ => is_scalar_name(scope, e),
    }
}

fn are_plain(scope: &Scoped, args: &[Expr]) -> bool
    ensures { result ≡ list_all (is_plain_subscript (scope_by scope.now)) args.now }
{
    for e in args {
        if !is_plain_subscript(scope, e) {
            return false;
        }
    }
    true
}

fn are_plain_arguments(scope: &Scoped, f: &Name, args: &[Expr]) -> bool
    ensures { result ≡ are_plain_arguments (scope_by scope.now) f.now args.now }
{
    !scope.is_array(f) || are_plain(scope, args)
}

/// Whether an expression is no element, or has plain subscripts alone.
pub(crate) fn has_plain_subscripts(scope: &Scoped, e: &Expr) -> bool
    ensures { result ≡ has_plain_subscripts (scope_by scope.now) e.now }
{
    match e {
        Expr::Apply(f, args) => are_plain_arguments(scope, f, args.as_slice()),
        _ => true,
    }
}
