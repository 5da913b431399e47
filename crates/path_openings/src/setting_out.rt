// The start of a path.
ghost use Rattle.std.specs.Prelude.{◌≡◌, option_copied, slice_get, IfOk, OnOk};
ghost use Rattle.entry_frames.specs.Entries.{IsFrame, at_entry_in};
ghost use Rattle.fort_model.specs.Program.{Program};
ghost use Rattle.path_plans.specs.Plans.{IsPlan};
ghost use Rattle.path_scene.specs.Scenes.{IsReady};
ghost use Rattle.path_starts.specs.Starts.{unit_of};
ghost use Rattle.path_openings.specs.Openings.{Sets};
ghost use Rattle.walk_state.specs.Moments.{Follows, IsWalk, moment};

use crate::opening::Begun;
use edge_io::NoMemory;
use fort_notes::AssertSpec;
use path_ends::Clock;
use path_plans::Plan;
use path_starts::start_at;

/// The ASSERT of a number, from 0.
fn assert_of<'a>(asserts: &'a [AssertSpec], number: usize) -> Option<&'a AssertSpec>
    ensures { option_copied result ≡ slice_get asserts.now number }
{
    asserts.get(number)
}

/// A path starts, at the entry or at an ASSERT, told by its number from 1; it answers the clock
/// there, if there is one.
pub fn set_out(begun: &mut Begun, plan: &Plan, start: usize) -> Result<Option<Clock>, NoMemory>
    requires well { IsWalk begun.old.walk }
    requires plan { IsPlan plan.now }
    requires ready { (p : Program) × IsReady begun.old.walk.pool plan.now.setting.now.scene.now p }
    requires at { (moment begun.old.walk).now ≡ at_entry_in (unit_of plan.now).names }
    requires frame { IsFrame begun.old.walk.pool (unit_of plan.now) begun.old.walk.names
        begun.old.entry.items (at_entry_in (unit_of plan.now).names) }
    ensures on { OnOk result (Follows begun.old.walk begun.new.walk) }
    ensures did { IfOk result (λ clock. Sets plan.now start begun.old.walk begun.new clock) }
{
    if start == 0 {
        return Ok(None);
    }
    let asserts = plan.spec.asserts.as_slice();
    let Some(assert) = assert_of(asserts, start - 1) else {
        return Ok(None);
    };
    let Ok(parts) = start_at(&mut begun.walk, plan, &begun.entry, assert) else {
        return Err(NoMemory);
    };
    Ok(Some(Clock { parts }))
}
