// The names that a unit smashes, in order.
ghost use Rattle.std.specs.Prelude.{◌≡◌, ◌++◌, IfOk, OnOk};
ghost use Rattle.std.specs.List.{filter};
ghost use Rattle.formula.specs.Atoms.{is_among};
ghost use Rattle.start_lists.specs.Smashed.{has_kind, names_of_kind, smashed_names};

use crate::commons::commons_of;
use crate::dims::keep;
use edge_io::NoMemory;
use fort_syntax::{DataName, Name, Role, Unit};
use name_tables::NameSet;
use std::alloc::Global;

/// Adds those of some names that are smashed.
fn add_smashed(all: &mut Vec<Name>, smashed: &NameSet, names: &[Name]) -> Result<(), NoMemory>
    ensures { OnOk result (all.new.items ≡ all.old.items ++ filter (λ x. is_among x smashed.now) names.now) }
{
    for name in names {
        let Ok(()) = keep(all, name, smashed.has(name)) else {
            return Err(NoMemory);
        };
    }
    Ok(())
}

/// Whether a role is that of a FUNCTION's own value, or that of a local.
fn has_kind(value: bool, role: Role) -> bool
    ensures { result ≡ has_kind value role }
{
    match role {
        Role::OwnValue => value,
        Role::Local => !value,
        Role::Dummy | Role::InCommon => false,
    }
}

/// Adds those data names that are smashed, of one kind.
fn add_of_kind(
    all: &mut Vec<Name>,
    smashed: &NameSet,
    names: &[DataName],
    value: bool,
) -> Result<(), NoMemory>
    ensures { OnOk result (all.new.items ≡ all.old.items ++ filter (λ x. is_among x smashed.now)
        (names_of_kind value names.now)) }
{
    for data in names {
        let wanted = has_kind(value, data.role) && smashed.has(&data.name);
        let Ok(()) = keep(all, &data.name, wanted) else {
            return Err(NoMemory);
        };
    }
    Ok(())
}

/// The names of a unit that a set has: dummies, COMMON entities, a FUNCTION's own value, locals.
pub fn smashed_in_order(
    alloc: Global,
    unit: &Unit,
    smashed: &NameSet,
) -> Result<Vec<Name>, NoMemory>
    ensures { IfOk result (λ names. names.items ≡ smashed_names smashed.now unit.now) }
{
    let Ok(commons) = commons_of(alloc, unit) else {
        return Err(NoMemory);
    };
    let mut all = Vec::new(alloc);
    let names = unit.names.as_slice();
    let Ok(()) = add_smashed(&mut all, smashed, unit.dummies.as_slice()) else {
        return Err(NoMemory);
    };
    let Ok(()) = add_smashed(&mut all, smashed, &commons) else {
        return Err(NoMemory);
    };
    let Ok(()) = add_of_kind(&mut all, smashed, names, true) else {
        return Err(NoMemory);
    };
    let Ok(()) = add_of_kind(&mut all, smashed, names, false) else {
        return Err(NoMemory);
    };
    Ok(all)
}
