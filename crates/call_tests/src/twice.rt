// Smashed actuals that stand in another actual too.
ghost use Rattle.std.specs.Prelude.{◌≡◌, [], map, IfOk, OnOk};
ghost use Rattle.std.specs.List.{filter};
ghost use Rattle.formula.specs.Atoms.{is_among};
ghost use Rattle.fort_model.specs.CallRules.{some_smashed, bare_elsewhere};
ghost use Rattle.name_tables.specs.Sets.{with_names};
ghost use Rattle.call_tests.specs.Mentioned.{names_in};
ghost use Rattle.call_tests.specs.Twice.{twice_after};

use crate::names::names_in;
use crate::passed::passes_bare;
use edge_io::{Keys, NoMemory};
use fort_syntax::{Expr, Name};
use name_tables::NameSet;
use std::alloc::Global;

/// Adds those of some names that were seen before.
fn add_again(again: &mut NameSet, before: &NameSet, names: &[Name]) -> Result<(), NoMemory>
    ensures { OnOk result (again.new ≡ with_names again.old (filter (λ x. is_among x before.now) names.now)) }
{
    for name in names {
        if before.has(name) {
            let Ok(_) = again.add(*name) else {
                return Err(NoMemory);
            };
        }
    }
    Ok(())
}

/// The names that stand in two of some expressions.
fn named_twice(alloc: Global, keys: Keys, actuals: &[Expr]) -> Result<NameSet, NoMemory>
    ensures { IfOk result (λ again. again ≡ twice_after [] [] (map names_in actuals.now)) }
{
    let mut again = NameSet::new(alloc, keys);
    let mut before = NameSet::new(alloc, keys);
    for e in actuals {
        let names = names_in(alloc, e)?;
        add_again(&mut again, &before, names.as_slice())?;
        let Ok(_) = before.add_all(names.as_slice()) else {
            return Err(NoMemory);
        };
    }
    Ok(again)
}

/// Whether a call passes to a smashed dummy a bare name that stands in another of its actuals too.
pub fn passes_twice(
    alloc: Global,
    keys: Keys,
    smashed: &NameSet,
    dummies: &[Name],
    actuals: &[Expr],
) -> Result<bool, NoMemory>
    ensures { IfOk result (λ twice. twice ≡ some_smashed (λ d. is_among d smashed.now)
        (bare_elsewhere actuals.now) 0 dummies.now actuals.now) }
{
    let again = named_twice(alloc, keys, actuals)?;
    Ok(passes_bare(smashed, &again, dummies, actuals))
}
