// All names of a called unit, put into a frame.
ghost use Rattle.std.specs.Prelude.{◌≡◌, length, OnOk};
ghost use Rattle.formula.specs.Pool.{AllBelow, IsIn, tree_of};
ghost use Rattle.fort_syntax.specs.Names.{is_local};
ghost use Rattle.call_frames.specs.Frames.{Fills, IsFilled, IsPlaced, all_shared, own_of, shared_in, told_by};
ghost use Rattle.note_terms.specs.Stated.{trees_in};
ghost use Rattle.walk_names.specs.Names.{IsNames};
ghost use Rattle.walk_state.specs.Moments.{Follows, IsWalk, moment};

use crate::own::{own_term, put};
use call_sites::Book;
use edge_io::NoMemory;
use formula::TermId;
use fort_syntax::{DataName, Name, Role};
use walk_names::Names;
use walk_state::Walk;

/// A data name is a local one.
fn is_local(entity: &DataName) -> bool
    ensures { result ≡ is_local entity.now.role }
{
    match entity.role {
        Role::Local => true,
        Role::Dummy => false,
        Role::InCommon => false,
        Role::OwnValue => false,
    }
}

/// A data name stands for what it does where it is no dummy; a local name is left out.
fn put_data(
    walk: &mut Walk,
    frame: &mut Names,
    callee: &Book,
    value: TermId,
    entity: &DataName,
) -> Result<(), NoMemory>
    requires well { IsWalk walk.old }
    requires frame { IsNames walk.old.pool frame.old }
    requires value { IsIn walk.old.pool value }
    ensures on { Follows walk.old walk.new }
    ensures same { moment walk.new ≡ moment walk.old }
    ensures filled { OnOk result (IsFilled walk.old.pool frame.old walk.new.pool frame.new
        (shared_in entity.now) (own_of callee.now.unit.now (moment walk.old).now
        (tree_of walk.old.pool value))) }
{
    if is_local(entity) {
        return Ok(());
    }
    let id = own_term(walk, callee, value, &entity.name)?;
    put(walk, frame, &entity.name, id)?;
    Ok(())
}

/// All data names but the local ones, as `put_data` puts them.
fn put_names(
    walk: &mut Walk,
    frame: &mut Names,
    callee: &Book,
    value: TermId,
    names: &[DataName],
) -> Result<(), NoMemory>
    requires well { IsWalk walk.old }
    requires frame { IsNames walk.old.pool frame.old }
    requires value { IsIn walk.old.pool value }
    ensures on { Follows walk.old walk.new }
    ensures same { moment walk.new ≡ moment walk.old }
    ensures filled { OnOk result (IsFilled walk.old.pool frame.old walk.new.pool frame.new
        (all_shared names.now) (own_of callee.now.unit.now (moment walk.old).now
        (tree_of walk.old.pool value))) }
{
    for entity in names {
        put_data(walk, frame, callee, value, entity)?;
    }
    Ok(())
}

/// Dummies stand for their actuals; where a name is two of them, for the first.
fn put_actuals(
    walk: &mut Walk,
    frame: &mut Names,
    dummies: &[Name],
    actuals: &[TermId],
) -> Result<(), NoMemory>
    requires well { IsWalk walk.old }
    requires frame { IsNames walk.old.pool frame.old }
    requires actuals { AllBelow (length walk.old.pool) actuals.now }
    ensures on { Follows walk.old walk.new }
    ensures same { moment walk.new ≡ moment walk.old }
    ensures placed { OnOk result (IsPlaced walk.old.pool frame.old walk.new.pool frame.new
        dummies.now (trees_in walk.old.pool actuals.now)) }
{
    let mut k = dummies.len().min(actuals.len());
    while k > 0 {
        k -= 1;
        put(walk, frame, &dummies[k], actuals[k])?;
    }
    Ok(())
}

/// All names of a called unit but its local ones stand for what a call tells: dummies for the
/// actuals, the unit's own name for a value, and COMMON entities for what they are to the caller.
pub(crate) fn fill(
    walk: &mut Walk,
    frame: &mut Names,
    callee: &Book,
    actuals: &[TermId],
    value: TermId,
) -> Result<(), NoMemory>
    requires well { IsWalk walk.old }
    requires frame { IsNames walk.old.pool frame.old }
    requires actuals { AllBelow (length walk.old.pool) actuals.now }
    requires value { IsIn walk.old.pool value }
    ensures on { Follows walk.old walk.new }
    ensures same { moment walk.new ≡ moment walk.old }
    ensures fills { OnOk result (Fills frame.old.table walk.new.pool frame.new callee.now.unit.now
        (told_by callee.now.unit.now (trees_in walk.old.pool actuals.now) (moment walk.old).now
        (tree_of walk.old.pool value))) }
{
    put_names(walk, frame, callee, value, callee.unit.names.as_slice())?;
    put_actuals(walk, frame, callee.unit.dummies.as_slice(), actuals)?;
    Ok(())
}
