// What holds at the entry.
ghost use Rattle.std.specs.Prelude.{◌≡◌, OnOk};
ghost use Rattle.fort_model.specs.Events.{takes};
ghost use Rattle.fort_model.specs.Program.{Program};
ghost use Rattle.fort_model.specs.Seen.{meet};
ghost use Rattle.fort_model.specs.Walk.{entry_facts};
ghost use Rattle.entry_frames.specs.Entries.{IsFrame, at_entry_in};
ghost use Rattle.path_plans.specs.Plans.{IsPlan};
ghost use Rattle.path_scene.specs.Scenes.{IsReady};
ghost use Rattle.path_starts.specs.Starts.{EntryBegins};
ghost use Rattle.walk_setting.specs.Settings.{DoesIn};
ghost use Rattle.walk_state.specs.Moments.{Follows, IsWalk, moment};

use crate::facts::{take_bound, take_dims};
use crate::notes::take_notes;
use call_facts::take_sorts;
use edge_io::NoMemory;
use formula::TermId;
use path_plans::Plan;
use walk_state::Walk;

/// The facts of a unit's entry that are no terms of its INPUT.
fn take_shapes(walk: &mut Walk, plan: &Plan) -> Result<(), NoMemory>
    requires well { IsWalk walk.old }
    requires plan { IsPlan plan.now }
    requires ready { (p : Program) × IsReady walk.old.pool plan.now.setting.now.scene.now p }
    ensures on { OnOk result (Follows walk.old walk.new) }
    ensures did { OnOk result (EntryBegins plan.now walk.old walk.new) }
{
    let book = plan.setting.book;
    let Ok(()) = take_bound(walk, plan.setting.scene.bound) else {
        return Err(NoMemory);
    };
    let Ok(()) = take_sorts(walk, book, book.unit.dummies.as_slice()) else {
        return Err(NoMemory);
    };
    let Ok(()) = take_sorts(walk, book, &plan.commons) else {
        return Err(NoMemory);
    };
    let Ok(()) = take_dims(walk, &plan.dims) else {
        return Err(NoMemory);
    };
    Ok(())
}

/// What holds at the entry of a unit: the processor has the integers up to the bound, dummies and
/// COMMON entities have their types, dimensions are at least 1, and the INPUT holds. The terms are
/// those that the walk's names stand for at the entry, at their places.
pub fn take_entry(walk: &mut Walk, plan: &Plan, entry: &[TermId]) -> Result<(), NoMemory>
    requires well { IsWalk walk.old }
    requires plan { IsPlan plan.now }
    requires ready { (p : Program) × IsReady walk.old.pool plan.now.setting.now.scene.now p }
    requires at { (moment walk.old).now ≡ at_entry_in plan.now.setting.now.book.now.unit.now.names }
    requires frame { IsFrame walk.old.pool plan.now.setting.now.book.now.unit.now walk.old.names
        entry.now (at_entry_in plan.now.setting.now.book.now.unit.now.names) }
    ensures on { OnOk result (Follows walk.old walk.new) }
    ensures did { OnOk result (DoesIn walk.old.pool plan.now.setting.now (moment walk.old)
        (λ w. meet (takes (entry_facts w))) (moment walk.new) tt) }
{
    let Ok(()) = take_shapes(walk, plan) else {
        return Err(NoMemory);
    };
    let input = plan.spec.input.as_slice();
    let Ok(()) = take_notes(walk, entry, input) else {
        return Err(NoMemory);
    };
    Ok(())
}
