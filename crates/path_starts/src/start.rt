// What holds at an ASSERT where a path starts.
ghost use Rattle.std.specs.Prelude.{◌≡◌, IfOk, OnOk};
ghost use Rattle.fort_model.specs.Program.{Program};
ghost use Rattle.entry_frames.specs.Entries.{IsFrame, at_entry_in};
ghost use Rattle.path_plans.specs.Plans.{IsPlan};
ghost use Rattle.path_scene.specs.Scenes.{IsReady};
ghost use Rattle.path_starts.specs.Starts.{ClockTold, IsAssertOf, IsStartOf, StartsAt, TakesStart, start_in};
ghost use Rattle.walk_state.specs.Moments.{Follows, IsWalk, moment, with_names};

use crate::notes::take_notes;
use call_facts::take_sorts;
use edge_io::NoMemory;
use formula::TermId;
use fort_notes::AssertSpec;
use note_terms::{at_least_zero, note_terms};
use path_plans::Plan;
use start_terms::start_names;
use walk_lists::take_all;
use walk_state::Walk;

/// The names that the unit smashes stand for symbols of their own.
fn set_starts(walk: &mut Walk, plan: &Plan) -> Result<(), NoMemory>
    requires well { IsWalk walk.old }
    requires at { (moment walk.old).now ≡ at_entry_in plan.now.setting.now.book.now.unit.now.names }
    ensures on { OnOk result (Follows walk.old walk.new) }
    ensures stands { OnOk result (moment walk.new ≡ with_names (moment walk.old) (start_in plan.now)) }
{
    let Ok(()) = start_names(walk.alloc, &mut walk.pool, &mut walk.names, plan.smashed) else {
        return Err(NoMemory);
    };
    Ok(())
}

/// The parts of a clock, which are 0 or more.
fn take_clock(walk: &mut Walk, entry: &[TermId], clock: &[TermId]) -> Result<Vec<TermId>, NoMemory>
    requires well { IsWalk walk.old }
    requires start { IsStartOf walk.old entry.now clock.now }
    ensures on { OnOk result (Follows walk.old walk.new) }
    ensures did { IfOk result (λ told. ClockTold walk.old entry.now clock.now walk.new told.items) }
{
    let Ok(told) = note_terms(walk.alloc, &mut walk.pool, &walk.names, entry, clock) else {
        return Err(NoMemory);
    };
    let Ok(facts) = at_least_zero(walk.alloc, &mut walk.pool, &told) else {
        return Err(NoMemory);
    };
    let Ok(()) = take_all(walk, &facts) else {
        return Err(NoMemory);
    };
    Ok(told)
}

/// The facts of an ASSERT where a path starts, once names stand for what they do there; it answers
/// the parts of the clock there.
fn take_assert(
    walk: &mut Walk,
    plan: &Plan,
    entry: &[TermId],
    assert: &AssertSpec,
) -> Result<Vec<TermId>, NoMemory>
    requires well { IsWalk walk.old }
    requires ready { (p : Program) × IsReady walk.old.pool plan.now.setting.now.scene.now p }
    requires terms { IsStartOf walk.old entry.now assert.now.terms }
    requires clock { IsStartOf walk.old entry.now assert.now.clock }
    ensures on { OnOk result (Follows walk.old walk.new) }
    ensures did { IfOk result (λ told. TakesStart plan.now assert.now walk.old entry.now
        walk.new told.items) }
{
    let Ok(()) = take_sorts(walk, plan.setting.book, &plan.order) else {
        return Err(NoMemory);
    };
    let terms = assert.terms.as_slice();
    let Ok(()) = take_notes(walk, entry, terms) else {
        return Err(NoMemory);
    };
    let parts = assert.clock.as_slice();
    let Ok(clock) = take_clock(walk, entry, parts) else {
        return Err(NoMemory);
    };
    Ok(clock)
}

/// A path starts at an ASSERT of its unit: the smashed names stand for symbols of their own and
/// have their types, the ASSERT holds, and no part of its clock is negative. It answers the parts
/// of the clock there.
pub fn start_at(
    walk: &mut Walk,
    plan: &Plan,
    entry: &[TermId],
    assert: &AssertSpec,
) -> Result<Vec<TermId>, NoMemory>
    requires well { IsWalk walk.old }
    requires plan { IsPlan plan.now }
    requires ready { (p : Program) × IsReady walk.old.pool plan.now.setting.now.scene.now p }
    requires at { (moment walk.old).now ≡ at_entry_in plan.now.setting.now.book.now.unit.now.names }
    requires frame { IsFrame walk.old.pool plan.now.setting.now.book.now.unit.now walk.old.names
        entry.now (at_entry_in plan.now.setting.now.book.now.unit.now.names) }
    requires assert { IsAssertOf plan.now assert.now }
    ensures on { OnOk result (Follows walk.old walk.new) }
    ensures did { IfOk result (λ clock. StartsAt plan.now assert.now walk.old walk.new
        entry.now clock.items) }
{
    let Ok(()) = set_starts(walk, plan) else {
        return Err(NoMemory);
    };
    let Ok(clock) = take_assert(walk, plan, entry, assert) else {
        return Err(NoMemory);
    };
    Ok(clock)
}
