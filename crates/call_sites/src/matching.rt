// Whether actuals match dummies, and COMMON blocks.
ghost use Rattle.std.specs.Prelude.{◌≡◌, ℕ, Some, option_copied, slice_get};
ghost use Rattle.fort_model.specs.Arguments.{actual_for, actuals_fit, dim_agrees, dims_agree, fits_dummy, gives_dim, is_own_sort, reference_fits, same_constant, same_sort_as};
ghost use Rattle.fort_model.specs.CallRules.{lacks_block, mismatches};
ghost use Rattle.fort_syntax.specs.Names.{data_name};

use crate::book::Book;
use crate::site::Site;
use fort_syntax::{DataName, Dim, Expr, Name, Sort};

fn same_sort_as(sort: Sort, other: Option<Sort>) -> bool
    ensures { result ≡ same_sort_as sort other }
{
    match (sort, other) {
        (Sort::Integer, Some(Sort::Integer)) => true,
        (Sort::Logical, Some(Sort::Logical)) => true,
        _ => false,
    }
}

fn same_constant(n: u64, dim: &Dim) -> bool
    ensures { result ≡ same_constant n dim.now }
{
    match dim {
        Dim::Fixed(m) => n == *m,
        Dim::Named(_) => false,
    }
}

fn expr_at<'e>(exprs: &'e [Expr], number: usize) -> Option<&'e Expr>
    ensures { option_copied result ≡ slice_get exprs.now number }
{
    exprs.get(number)
}

/// The actual for the dummy of this name.
fn actual_for<'e>(callee: &Book, actuals: &'e [Expr], name: &Name) -> Option<&'e Expr>
    ensures { option_copied result ≡ actual_for callee.now.unit.now.dummies actuals.now name.now }
{
    match callee.dummy(name) {
        Some(number) => expr_at(actuals, number),
        None => None,
    }
}

/// Whether an actual gives a dimension.
fn gives_dim(actual: &Expr, dim: &Dim) -> bool
    ensures { result ≡ gives_dim (Some actual.now) dim.now }
{
    match (actual, dim) {
        (Expr::Const(c), Dim::Fixed(n)) => *c == *n,
        (Expr::Var(y), Dim::Named(x)) => *y == *x,
        _ => false,
    }
}

/// Whether a dimension of a dummy that is a name agrees with one of the actual.
fn named_agrees(callee: &Book, actuals: &[Expr], name: &Name, dim: &Dim) -> bool
    ensures { result ≡ gives_dim (actual_for callee.now.unit.now.dummies actuals.now name.now) dim.now }
{
    match actual_for(callee, actuals, name) {
        Some(actual) => gives_dim(actual, dim),
        None => false,
    }
}

fn dim_agrees(callee: &Book, actuals: &[Expr], dummy: &Dim, actual: &Dim) -> bool
    ensures { result ≡ dim_agrees callee.now.unit.now actuals.now dummy.now actual.now }
{
    match dummy {
        Dim::Fixed(n) => same_constant(*n, actual),
        Dim::Named(x) => named_agrees(callee, actuals, x, actual),
    }
}

#[tactic(auto, using(crate::proofs::Matched::unlike_dims))]
fn dims_agree(callee: &Book, actuals: &[Expr], dummy: &[Dim], actual: &[Dim]) -> bool
    ensures { result ≡ dims_agree callee.now.unit.now actuals.now dummy.now actual.now }
{
    if dummy.len() != actual.len() {
        return false;
    }
    for i in 0..dummy.len() {
        if !dim_agrees(callee, actuals, &dummy[i], &actual[i]) {
            return false;
        }
    }
    true
}

fn fits_data(
    callee: &Book,
    actuals: &[Expr],
    caller: &Book,
    dummy: &DataName,
    actual: &Expr,
) -> bool
    ensures { result ≡ fits_dummy callee.now.unit.now actuals.now caller.now.unit.now
        (Some dummy.now) actual.now }
{
    same_sort_as(dummy.sort, caller.sort_of(actual))
        && dims_agree(
            callee,
            actuals,
            dummy.dims.as_slice(),
            caller.dims_of_actual(actual),
        )
}

fn fits_dummy(callee: &Book, actuals: &[Expr], caller: &Book, dummy: &Name, actual: &Expr) -> bool
    ensures { result ≡ fits_dummy callee.now.unit.now actuals.now caller.now.unit.now
        (data_name callee.now.unit.now dummy.now) actual.now }
{
    match callee.data(dummy) {
        Some(data) => fits_data(callee, actuals, caller, data, actual),
        None => false,
    }
}

/// Whether the actuals of a call of the one unit in the other match the dummies.
#[tactic(auto, using(crate::proofs::Matched::unlike_dummies))]
fn actuals_fit(callee: &Book, caller: &Book, actuals: &[Expr]) -> bool
    ensures { result ≡ actuals_fit caller.now.unit.now callee.now.unit.now actuals.now }
{
    let dummies = callee.unit.dummies.as_slice();
    if dummies.len() != actuals.len() {
        return false;
    }
    for i in 0..dummies.len() {
        if !fits_dummy(callee, actuals, caller, &dummies[i], &actuals[i]) {
            return false;
        }
    }
    true
}

fn is_own_sort(own: Option<Sort>, told: Option<Sort>) -> bool
    ensures { result ≡ is_own_sort own told }
{
    match own {
        Some(sort) => same_sort_as(sort, told),
        None => false,
    }
}

/// Whether a reference takes a FUNCTION to be of its own type.
fn reference_fits(callee: &Book, caller: &Book, reference: bool) -> bool
    ensures { result ≡ reference_fits caller.now.unit.now callee.now.unit.now reference }
{
    !reference || is_own_sort(callee.unit.sort, caller.reference_sort(&callee.unit.name))
}

/// Whether a call of the one unit in the other has actuals that do not match, or a wrong type.
pub fn mismatches(callee: &Book, caller: &Book, site: &Site) -> bool
    ensures { (j : ℕ) → result ≡ mismatches caller.now.unit.now site.now j callee.now.unit.now }
{
    !actuals_fit(callee, caller, site.actuals())
        || !reference_fits(callee, caller, site.is_reference())
}

/// Whether the called unit declares a block that the caller does not.
pub fn lacks_block(callee: &Book, caller: &Book) -> bool
    ensures { (j : ℕ) → result ≡ lacks_block caller.now.unit.now j callee.now.unit.now }
{
    let groups = callee.unit.blocks.as_slice();
    for group in groups {
        if !caller.declares(&group.block) {
            return true;
        }
    }
    false
}
