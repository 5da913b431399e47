// The end of a path.
ghost use Rattle.std.specs.Prelude.{◌≡◌, [], None, length, OnOk};
ghost use Rattle.fort_model.specs.Program.{Program};
ghost use Rattle.fort_model.specs.Paths.{AtEnd};
ghost use Rattle.fort_model.specs.Seen.{meet};
ghost use Rattle.fort_model.specs.Walk.{arrive};
ghost use Rattle.path_ends.specs.Ends.{Arrives, AssertArrives, IsClockIn, TellsNow, assert_checks, clock_trees};
ghost use Rattle.path_plans.specs.Plans.{IsPlan};
ghost use Rattle.path_scene.specs.Scenes.{IsReady};
ghost use Rattle.path_starts.specs.Starts.{IsStartOf};
ghost use Rattle.walk_setting.specs.Settings.{DoesIn};
ghost use Rattle.walk_state.specs.Moments.{Did, Follows, IsWalk, moment};

use crate::clock::{Clock, Last};
use crate::find::assert_at;
use crate::notes::{check_clock, check_notes};
use edge_io::NoMemory;
use formula::TermId;
use fort_notes::AssertSpec;
use fort_syntax::Kind;
use path_plans::Plan;
use walk_state::Walk;

/// What is checked at an ASSERT.
fn check_assert(
    walk: &mut Walk,
    entry: &[TermId],
    clock: &Option<Clock>,
    assert: &AssertSpec,
) -> Result<(), NoMemory>
    requires well { IsWalk walk.old }
    requires terms { IsStartOf walk.old entry.now assert.now.terms }
    requires parts { IsStartOf walk.old entry.now assert.now.clock }
    requires clock { IsClockIn (length walk.old.pool) clock.now }
    ensures on { OnOk result (Follows walk.old walk.new) }
    ensures did { OnOk result (Did (moment walk.old) (meet (assert_checks walk.old entry.now
        (clock_trees walk.old.pool clock.now) assert.now)) (moment walk.new) tt) }
{
    let terms = assert.terms.as_slice();
    let Ok(()) = check_notes(walk, entry, Kind::AssertCheck, assert.card, terms) else {
        return Err(NoMemory);
    };
    let parts = assert.clock.as_slice();
    let Ok(()) = check_clock(walk, entry, assert.card, clock, parts) else {
        return Err(NoMemory);
    };
    Ok(())
}

/// The OUTPUT of a unit is checked at a card.
fn check_output(walk: &mut Walk, plan: &Plan, entry: &[TermId], card: u32) -> Result<(), NoMemory>
    requires well { IsWalk walk.old }
    requires plan { IsPlan plan.now }
    requires ready { (p : Program) × IsReady walk.old.pool plan.now.setting.now.scene.now p }
    requires frame { TellsNow plan.now walk.old entry.now }
    ensures on { OnOk result (Follows walk.old walk.new) }
    ensures did { OnOk result (DoesIn walk.old.pool plan.now.setting.now (moment walk.old)
        (λ w. meet (arrive w None card AtEnd (moment walk.old).now [])) (moment walk.new) tt) }
{
    let output = plan.spec.output.as_slice();
    let Ok(()) = check_notes(walk, entry, Kind::OutputCheck, card, output) else {
        return Err(NoMemory);
    };
    Ok(())
}

/// The ASSERT at a point is checked, if there is one.
fn check_at(
    walk: &mut Walk,
    plan: &Plan,
    entry: &[TermId],
    clock: &Option<Clock>,
    point: usize,
) -> Result<(), NoMemory>
    requires well { IsWalk walk.old }
    requires plan { IsPlan plan.now }
    requires ready { (p : Program) × IsReady walk.old.pool plan.now.setting.now.scene.now p }
    requires frame { TellsNow plan.now walk.old entry.now }
    requires clock { IsClockIn (length walk.old.pool) clock.now }
    ensures on { OnOk result (Follows walk.old walk.new) }
    ensures did { OnOk result (AssertArrives plan.now clock.now point walk.old walk.new) }
{
    let asserts = plan.spec.asserts.as_slice();
    let Some(assert) = assert_at(asserts, point) else {
        return Ok(());
    };
    let Ok(()) = check_assert(walk, entry, clock, assert) else {
        return Err(NoMemory);
    };
    Ok(())
}

/// A path arrives at a point: at the end of the unit its OUTPUT is checked at the card, which is
/// that of the last statement; at an ASSERT its terms are, that no part of its clock is negative,
/// and where the path started at an ASSERT, with the clock that is given, that the clock has
/// fallen. At a point that is no cut point nothing is. The terms of the entry are those that the
/// walk's names stood for there, at their places.
pub fn arrive(
    walk: &mut Walk,
    plan: &Plan,
    entry: &[TermId],
    clock: &Option<Clock>,
    last: Last,
) -> Result<(), NoMemory>
    requires well { IsWalk walk.old }
    requires plan { IsPlan plan.now }
    requires ready { (p : Program) × IsReady walk.old.pool plan.now.setting.now.scene.now p }
    requires frame { TellsNow plan.now walk.old entry.now }
    requires clock { IsClockIn (length walk.old.pool) clock.now }
    ensures on { OnOk result (Follows walk.old walk.new) }
    ensures did { OnOk result (Arrives plan.now clock.now last walk.old walk.new) }
{
    let lines = plan.setting.book.unit.lines.as_slice();
    if last.point >= lines.len() {
        let Ok(()) = check_output(walk, plan, entry, last.card) else {
            return Err(NoMemory);
        };
        return Ok(());
    }
    let Ok(()) = check_at(walk, plan, entry, clock, last.point) else {
        return Err(NoMemory);
    };
    Ok(())
}
