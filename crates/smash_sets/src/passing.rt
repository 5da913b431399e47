// What a call passes bare to smashed dummies.
ghost use Rattle.std.specs.Prelude.{◌≡◌, OnOk};
ghost use Rattle.formula.specs.Atoms.{is_among};
ghost use Rattle.fort_model.specs.CallRules.{bare_name, bare_names};
ghost use Rattle.name_tables.specs.Sets.{with_names};

use crate::adding::add;
use edge_io::NoMemory;
use fort_syntax::{Expr, Name};
use name_tables::NameSet;

/// Adds an actual to a set, where it is a bare name and its dummy is smashed.
fn add_actual(set: &mut NameSet, smashed: bool, actual: &Expr) -> Result<(), NoMemory>
    ensures { OnOk result (set.new ≡ with_names set.old (bare_name smashed actual.now)) }
{
    if !smashed {
        return Ok(());
    }
    match actual {
        Expr::Var(x) => add(set, x),
        _ => Ok(()),
    }
}

/// Adds the bare names that a call passes to smashed dummies: the dummies of the called unit and the actuals stand in the same
/// order, and what has no partner does not count. At `NoMemory` some may be added.
pub fn add_actuals(
    set: &mut NameSet,
    smashed: &NameSet,
    dummies: &[Name],
    actuals: &[Expr],
) -> Result<(), NoMemory>
    ensures { OnOk result (set.new ≡ with_names set.old (bare_names (λ d. is_among d smashed.now)
        dummies.now actuals.now)) }
{
    let mut at = 0;
    while at < dummies.len() && at < actuals.len() {
        add_actual(set, smashed.has(&dummies[at]), &actuals[at])?;
        at += 1;
    }
    Ok(())
}
