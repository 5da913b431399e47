// COMMON entities among the actuals of a call.
ghost use Rattle.std.specs.Prelude.{◌≡◌, ◌&&◌, ◌||◌, IfOk};
ghost use Rattle.std.specs.List.{list_any};
ghost use Rattle.formula.specs.Atoms.{is_among};
ghost use Rattle.fort_model.specs.CallRules.{some_smashed, is_bare_common};
ghost use Rattle.call_tests.specs.Mentioned.{names_in};
ghost use Rattle.smash_rules.specs.Shared.{is_shared, meets_common};

use call_sites::Book;
use call_tests::names_in;
use edge_io::NoMemory;
use fort_syntax::{Expr, Name};
use name_tables::NameSet;
use smash_table::has_common;
use std::alloc::Global;

/// Whether a name is a COMMON entity of both units of a call that the called one smashes.
fn is_shared(caller: &Book, callee: &Book, smashed: &NameSet, name: &Name) -> bool
    ensures { result ≡ is_shared caller.now.unit.now callee.now.unit.now smashed.now name.now }
{
    has_common(caller, name) && (has_common(callee, name) && smashed.has(name))
}

/// Whether some name is so.
fn some_shared(caller: &Book, callee: &Book, smashed: &NameSet, names: &[Name]) -> bool
    ensures { result ≡ list_any (is_shared caller.now.unit.now callee.now.unit.now smashed.now) names.now }
{
    for name in names {
        if is_shared(caller, callee, smashed, name) {
            return true;
        }
    }
    false
}

/// Whether some actual mentions such a name.
fn mentions_shared(
    alloc: Global,
    caller: &Book,
    callee: &Book,
    smashed: &NameSet,
    actuals: &[Expr],
) -> Result<bool, NoMemory>
    ensures { IfOk result (λ found. found ≡ list_any
        (λ e. list_any (is_shared caller.now.unit.now callee.now.unit.now smashed.now) (names_in e))
        actuals.now) }
{
    for e in actuals {
        let names = names_in(alloc, e)?;
        if some_shared(caller, callee, smashed, names.as_slice()) {
            return Ok(true);
        }
    }
    Ok(false)
}

fn is_bare_common(caller: &Book, callee: &Book, e: &Expr) -> bool
    ensures { result ≡ is_bare_common caller.now.unit.now callee.now.unit.now e.now }
{
    match e {
        Expr::Var(x) => has_common(caller, x) && has_common(callee, x),
        _ => false,
    }
}

/// Whether a dummy is smashed and its actual is, bare, a COMMON entity of both units.
fn gets_common(caller: &Book, callee: &Book, smashed: &NameSet, dummy: &Name, actual: &Expr) -> bool
    ensures { result ≡ (is_among dummy.now smashed.now && is_bare_common caller.now.unit.now
        callee.now.unit.now actual.now) }
{
    smashed.has(dummy) && is_bare_common(caller, callee, actual)
}

/// Whether some smashed dummy gets such an actual.
fn some_gets_common(
    caller: &Book,
    callee: &Book,
    smashed: &NameSet,
    dummies: &[Name],
    actuals: &[Expr],
) -> bool
    ensures { result ≡ some_smashed (λ d. is_among d smashed.now) (λ n e.
        is_bare_common caller.now.unit.now callee.now.unit.now e) 0 dummies.now actuals.now }
{
    let mut at = 0;
    while at < dummies.len() && at < actuals.len() {
        if gets_common(caller, callee, smashed, &dummies[at], &actuals[at]) {
            return true;
        }
        at += 1;
    }
    false
}

/// Whether an actual of a call contains a COMMON entity of both units that the called one smashes, or a smashed dummy gets,
/// bare, a COMMON entity of both.
pub(crate) fn passes_common(
    alloc: Global,
    caller: &Book,
    callee: &Book,
    smashed: &NameSet,
    actuals: &[Expr],
) -> Result<bool, NoMemory>
    ensures { IfOk result (λ found. found ≡ meets_common caller.now.unit.now callee.now.unit.now
        smashed.now callee.now.unit.now.dummies actuals.now) }
{
    let found = mentions_shared(alloc, caller, callee, smashed, actuals)?;
    let dummies = callee.unit.dummies.as_slice();
    let gets = some_gets_common(caller, callee, smashed, dummies, actuals);
    Ok(found || gets)
}
