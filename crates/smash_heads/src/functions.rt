// FUNCTIONs that smash what their callers see.
ghost use Rattle.std.specs.Prelude.{◌≡◌, ◌&&◌, not};
ghost use Rattle.std.specs.List.{list_any};
ghost use Rattle.formula.specs.Atoms.{is_among};
ghost use Rattle.fort_syntax.specs.Names.{is_own, is_function};

use fort_syntax::{DataName, Role, Unit};
use name_tables::NameSet;

fn is_own(role: Role) -> bool
    ensures { result ≡ is_own role }
{
    match role {
        Role::Dummy => false,
        Role::InCommon => false,
        Role::OwnValue => true,
        Role::Local => true,
    }
}

/// Whether a data name has the cells of the caller, and is smashed.
fn is_seen(smashed: &NameSet, entry: &DataName) -> bool
    ensures { result ≡ (not (is_own entry.now.role) && is_among entry.now.name smashed.now) }
{
    !is_own(entry.role) && smashed.has(&entry.name)
}

/// Whether some data name is so.
fn some_seen(smashed: &NameSet, names: &[DataName]) -> bool
    ensures { result ≡ list_any (λ d. not (is_own d.role) && is_among d.name smashed.now) names.now }
{
    for entry in names {
        if is_seen(smashed, entry) {
            return true;
        }
    }
    false
}

/// Whether a unit is a FUNCTION and smashes a dummy or a COMMON entity, where it smashes these names.
pub(crate) fn function_smashes(unit: &Unit, smashed: &NameSet) -> bool
    ensures { result ≡ (is_function unit.now && list_any (λ d. not (is_own d.role)
        && is_among d.name smashed.now) unit.now.names) }
{
    unit.sort.is_some() && some_seen(smashed, unit.names.as_slice())
}
