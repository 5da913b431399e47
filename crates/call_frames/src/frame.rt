// What the names of a called unit stand for, at its entry and behind it.
ghost use Rattle.std.specs.Prelude.{◌≡◌, length, IfOk, OnOk};
ghost use Rattle.formula.specs.Pool.{AllBelow, IsIn, tree_of};
ghost use Rattle.formula.specs.Tree.{Tree};
ghost use Rattle.fort_model.specs.Seen.{Named};
ghost use Rattle.fort_model.specs.Senses.{of_terms};
ghost use Rattle.fort_model.specs.Senses.{undefined as no_value};
ghost use Rattle.call_frames.specs.Frames.{Enters, HasEntry, IsFrame, told_by};
ghost use Rattle.note_terms.specs.Stated.{trees_in};
ghost use Rattle.walk_names.specs.Names.{IsNames};
ghost use Rattle.walk_state.specs.Moments.{Follows, IsWalk, moment};

use crate::filling::fill;
use call_sites::Book;
use edge_io::NoMemory;
use formula::TermId;
use std::alloc::Global;
use walk_names::Names;
use walk_state::Walk;
use walk_terms::undefined;

/// The names of a called unit with what they stand for now, and their terms at the entry, which stand
/// at the places of the names' table.
#[derive(Drop)]
pub struct Frame {
    pub names: Names,
    pub entry: Vec<TermId>,
}

/// The same ids.
fn copied(alloc: Global, ids: &[TermId]) -> Result<Vec<TermId>, NoMemory>
    ensures { IfOk result (λ all. all.items ≡ ids.now) }
{
    let mut all = Vec::new(alloc);
    for id in ids {
        let Ok(()) = all.push(*id) else {
            return Err(NoMemory);
        };
    }
    Ok(all)
}

/// The frame of a called unit at its entry: dummies stand for the actuals, COMMON entities for what
/// they are to the caller, and the unit's own name for nothing.
pub fn enter(walk: &mut Walk, callee: &Book, actuals: &[TermId]) -> Result<Frame, NoMemory>
    requires well { IsWalk walk.old }
    requires actuals { AllBelow (length walk.old.pool) actuals.now }
    ensures on { Follows walk.old walk.new }
    ensures same { moment walk.new ≡ moment walk.old }
    ensures enters { IfOk result (λ frame. Enters walk.new.pool frame callee.now.unit.now
        (told_by callee.now.unit.now (trees_in walk.old.pool actuals.now) (moment walk.old).now
        (no_value of_terms))) }
{
    let Ok(none) = undefined(&mut walk.pool) else {
        return Err(NoMemory);
    };
    let mut names = Names::new(walk.alloc, walk.pool.keys());
    fill(walk, &mut names, callee, actuals, none)?;
    let Ok(entry) = copied(walk.alloc, names.terms.as_slice()) else {
        return Err(NoMemory);
    };
    Ok(Frame { names, entry })
}

/// The frame of a called unit behind it: the names stand for what the caller's do now, and the unit's
/// own name for the value of the function. Their terms at the entry stay.
pub fn leave(
    walk: &mut Walk,
    frame: &mut Frame,
    callee: &Book,
    actuals: &[TermId],
    value: TermId,
) -> Result<(), NoMemory>
    requires well { IsWalk walk.old }
    requires frame { IsNames walk.old.pool frame.old.names }
    requires actuals { AllBelow (length walk.old.pool) actuals.now }
    requires value { IsIn walk.old.pool value }
    ensures on { Follows walk.old walk.new }
    ensures same { moment walk.new ≡ moment walk.old }
    ensures tells { OnOk result (IsFrame walk.new.pool frame.new.names callee.now.unit.now
        (told_by callee.now.unit.now (trees_in walk.old.pool actuals.now) (moment walk.old).now
        (tree_of walk.old.pool value))) }
    ensures entry { OnOk result ((told : Named Tree) → HasEntry walk.old.pool frame.old.names.table
        frame.old.entry.items callee.now.unit.now told
        → HasEntry walk.new.pool frame.new.names.table frame.new.entry.items callee.now.unit.now
        told) }
{
    fill(walk, &mut frame.names, callee, actuals, value)?;
    Ok(())
}
