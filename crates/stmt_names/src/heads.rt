// The heads of units.
ghost use Rattle.std.specs.Prelude.{◌≡◌};
ghost use Rattle.fort_syntax.specs.Units.{headed_by, own_name, is_function_head, is_function_segment, dummies_by, groups_by};

use fort_syntax::{Group, Line, Name, Stmt};

fn headed_by(stmt: &Stmt) -> &[u8]
    ensures { result.now ≡ headed_by stmt.now }
{
    match stmt {
        Stmt::Subroutine(name, _) => name.as_bytes(),
        Stmt::Function(_, name, _) => name.as_bytes(),
        _ => &[],
    }
}

/// The letters of a unit's own name: none where its first statement is no head.
pub fn own_name(unit: &[Line]) -> &[u8]
    ensures { result.now ≡ own_name unit.now }
{
    if unit.is_empty() {
        &[]
    } else {
        headed_by(&unit[0].stmt)
    }
}

fn is_function_head(stmt: &Stmt) -> bool
    ensures { result ≡ is_function_head stmt.now }
{
    matches!(stmt, Stmt::Function(..))
}

/// Whether a unit is a FUNCTION.
pub fn is_function(unit: &[Line]) -> bool
    ensures { result ≡ is_function_segment unit.now }
{
    !unit.is_empty() && is_function_head(&unit[0].stmt)
}

/// The dummies that a statement lists.
pub fn dummies_by(stmt: &Stmt) -> &[Name]
    ensures { result.now ≡ dummies_by stmt.now }
{
    match stmt {
        Stmt::Subroutine(_, dummies) => dummies.as_slice(),
        Stmt::Function(_, _, dummies) => dummies.as_slice(),
        _ => &[],
    }
}

/// The groups of a COMMON statement.
pub fn groups_by(stmt: &Stmt) -> &[Group]
    ensures { result.now ≡ groups_by stmt.now }
{
    match stmt {
        Stmt::Common(groups) => groups.as_slice(),
        _ => &[],
    }
}
