// Names that a call smashes.
ghost use Rattle.std.specs.Prelude.{◌≡◌, ◌&&◌, [], ◌∷◌, cond, OnOk};
ghost use Rattle.fort_syntax.specs.Names.{has_common, is_in_common};
ghost use Rattle.name_tables.specs.Sets.{with_names};
ghost use Rattle.smash_table.specs.Smashed.{shared_row};

use call_sites::Book;
use edge_io::NoMemory;
use fort_syntax::{Name, Role};
use name_tables::NameSet;
use smash_sets::add;

/// Adds a name to a set, where it is wanted.
pub(crate) fn add_where(set: &mut NameSet, wanted: bool, name: &Name) -> Result<(), NoMemory>
    ensures { OnOk result (set.new ≡ with_names set.old (cond wanted (name.now ∷ []) [])) }
{
    if wanted { add(set, name) } else { Ok(()) }
}

fn is_in_common(role: Role) -> bool
    ensures { result ≡ is_in_common role }
{
    match role {
        Role::InCommon => true,
        Role::Dummy => false,
        Role::OwnValue => false,
        Role::Local => false,
    }
}

/// Whether a unit has a name as a COMMON entity.
pub fn has_common(book: &Book, name: &Name) -> bool
    ensures { result ≡ has_common book.now.unit.now name.now }
{
    match book.data(name) {
        Some(data) => is_in_common(data.role),
        None => false,
    }
}

/// Whether a name is a COMMON entity of both units of a call.
fn is_shared(caller: &Book, callee: &Book, name: &Name) -> bool
    ensures { result ≡ (has_common callee.now.unit.now name.now && has_common caller.now.unit.now name.now) }
{
    has_common(callee, name) && has_common(caller, name)
}

/// Adds those of the names that a called unit smashes which are COMMON entities of both units.
pub(crate) fn add_shared(
    set: &mut NameSet,
    caller: &Book,
    callee: &Book,
    names: &[Name],
) -> Result<(), NoMemory>
    ensures { OnOk result (set.new ≡ with_names set.old (shared_row caller.now.unit.now
        callee.now.unit.now names.now)) }
{
    for name in names {
        add_where(set, is_shared(caller, callee, name), name)?;
    }
    Ok(())
}
