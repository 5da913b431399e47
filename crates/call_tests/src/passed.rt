// What the smashed dummies of a call get.
ghost use Rattle.std.specs.Prelude.{◌≡◌, ◌&&◌, not};
ghost use Rattle.formula.specs.Atoms.{is_among};
ghost use Rattle.fort_model.specs.CallRules.{some_smashed, is_bare_name};
ghost use Rattle.call_tests.specs.Bare.{bare_in};

use fort_syntax::{Expr, Name};
use name_tables::NameSet;

fn is_bare_name(e: &Expr) -> bool
    ensures { result ≡ is_bare_name e.now }
{
    match e {
        Expr::Var(_) => true,
        _ => false,
    }
}

fn is_bare_in(set: &NameSet, e: &Expr) -> bool
    ensures { result ≡ bare_in set.now e.now }
{
    match e {
        Expr::Var(x) => set.has(x),
        _ => false,
    }
}

/// Whether a dummy is smashed and its actual is no bare name.
fn gets_no_name(smashed: &NameSet, dummy: &Name, actual: &Expr) -> bool
    ensures { result ≡ (is_among dummy.now smashed.now && not (is_bare_name actual.now)) }
{
    smashed.has(dummy) && !is_bare_name(actual)
}

/// Whether a dummy is smashed and its actual is a bare name in a set.
fn gets_bare(smashed: &NameSet, set: &NameSet, dummy: &Name, actual: &Expr) -> bool
    ensures { result ≡ (is_among dummy.now smashed.now && bare_in set.now actual.now) }
{
    smashed.has(dummy) && is_bare_in(set, actual)
}

/// Whether a call passes something else than a bare name to a smashed dummy. The dummies and their actuals stand in the same
/// order; what has no partner does not count.
pub fn passes_no_name(smashed: &NameSet, dummies: &[Name], actuals: &[Expr]) -> bool
    ensures { result ≡ some_smashed (λ d. is_among d smashed.now) (λ n e. not (is_bare_name e))
        0 dummies.now actuals.now }
{
    let mut at = 0;
    while at < dummies.len() && at < actuals.len() {
        if gets_no_name(smashed, &dummies[at], &actuals[at]) {
            return true;
        }
        at += 1;
    }
    false
}

/// Whether a call passes to a smashed dummy a bare name that is in a set.
pub(crate) fn passes_bare(
    smashed: &NameSet,
    set: &NameSet,
    dummies: &[Name],
    actuals: &[Expr],
) -> bool
    ensures { result ≡ some_smashed (λ d. is_among d smashed.now) (λ n e. bare_in set.now e)
        0 dummies.now actuals.now }
{
    let mut at = 0;
    while at < dummies.len() && at < actuals.len() {
        if gets_bare(smashed, set, &dummies[at], &actuals[at]) {
            return true;
        }
        at += 1;
    }
    false
}
