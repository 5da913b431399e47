// A name of a called unit, put into a frame.
ghost use Rattle.std.specs.Prelude.{◌≡◌, IfOk, OnOk};
ghost use Rattle.formula.specs.Pool.{IsIn, tree_of};
ghost use Rattle.fort_syntax.specs.Names.{has_common};
ghost use Rattle.call_frames.specs.Frames.{IsPut, own_of};
ghost use Rattle.walk_names.specs.Names.{IsNames};
ghost use Rattle.walk_state.specs.Moments.{Follows, IsWalk, moment};

use call_sites::Book;
use edge_io::NoMemory;
use formula::TermId;
use fort_syntax::{Name, Role};
use walk_names::Names;
use walk_state::Walk;
use walk_terms::undefined;

/// A name is a COMMON entity of a unit.
fn has_common(callee: &Book, name: &Name) -> bool
    ensures { result ≡ has_common callee.now.unit.now name.now }
{
    match callee.data(name) {
        Some(data) => matches!(data.role, Role::InCommon),
        None => false,
    }
}

/// What a name that is no dummy stands for in a called unit: the unit's own name for the value of the
/// function, a COMMON entity for what it is to the caller, and any other for nothing.
pub(crate) fn own_term(
    walk: &mut Walk,
    callee: &Book,
    value: TermId,
    name: &Name,
) -> Result<TermId, NoMemory>
    requires well { IsWalk walk.old }
    requires value { IsIn walk.old.pool value }
    ensures on { Follows walk.old walk.new }
    ensures same { moment walk.new ≡ moment walk.old }
    ensures is_in { IfOk result (λ id. IsIn walk.new.pool id) }
    ensures tree { IfOk result (λ id. tree_of walk.new.pool id ≡ own_of callee.now.unit.now
        (moment walk.old).now (tree_of walk.old.pool value) name.now) }
{
    if callee.unit.name == *name {
        return Ok(value);
    }
    if has_common(callee, name) {
        return walk.term(name);
    }
    let Ok(none) = undefined(&mut walk.pool) else {
        return Err(NoMemory);
    };
    Ok(none)
}

/// A name of a frame stands for a term from now on.
pub(crate) fn put(
    walk: &mut Walk,
    frame: &mut Names,
    name: &Name,
    id: TermId,
) -> Result<(), NoMemory>
    requires well { IsWalk walk.old }
    requires frame { IsNames walk.old.pool frame.old }
    requires id { IsIn walk.old.pool id }
    ensures on { Follows walk.old walk.new }
    ensures same { moment walk.new ≡ moment walk.old }
    ensures put { OnOk result (IsPut walk.old.pool frame.old walk.new.pool frame.new name.now
        (tree_of walk.old.pool id)) }
{
    let Ok(()) = frame.know(walk.alloc, &mut walk.pool, name) else {
        return Err(NoMemory);
    };
    let Ok(()) = frame.set(walk.alloc, &mut walk.pool, name, id) else {
        return Err(NoMemory);
    };
    Ok(())
}
