// The walk along the next path.
ghost use Rattle.std.specs.Prelude.{◌≡◌, List, length, IfOk, OnOk};
ghost use Rattle.formula.specs.Pool.{Grows};
ghost use Rattle.fort_model.specs.Graphs.{IsGraphOf};
ghost use Rattle.fort_model.specs.Program.{Program};
ghost use Rattle.fort_notes.specs.Assertions.{Notes};
ghost use Rattle.path_cut.specs.Cursor.{way_seen};
ghost use Rattle.path_cut.specs.declared.step.Step.{Step as OneStep};
ghost use Rattle.path_fronts.specs.Fronts.{HasEntry, HasGone, IsFront};
ghost use Rattle.shared_fronts.specs.Firsts.{SharesSteps};
ghost use Rattle.path_plans.specs.Plans.{IsPlan};
ghost use Rattle.path_scene.specs.Scenes.{IsReady};
ghost use Rattle.path_fronts.specs.Steps.{WalksAlong};

use crate::front::Front;
use crate::going::go;
use crate::starting::{Standing, stand};
use edge_io::NoMemory;
use path_cut::PathView;
use path_ends::{Last, arrive};
use path_plans::Plan;
use walk_flow::UnitFlow;

/// A walk that stands behind all statements of a path, the last of them at a card, arrives at its
/// end.
fn finish(front: &mut Front, plan: &Plan, path: &PathView, card: u32) -> Result<(), NoMemory>
    requires plan { IsPlan plan.now }
    requires ready { (p : Program) × IsReady front.old.walk.pool plan.now.setting.now.scene.now p }
    requires start { front.old.start ≡ path.now.start }
    requires front { IsFront plan.now.setting.now path.now.steps.now (length path.now.steps.now) front.old }
    requires told { HasEntry plan.now.setting.now front.old }
    requires gone { HasGone plan.now.setting.now path.now.steps.now card front.old }
    ensures grows { OnOk result (Grows front.old.walk.pool front.new.walk.pool) }
    ensures front { OnOk result (IsFront plan.now.setting.now path.now.steps.now
        (length path.now.steps.now) front.new) }
    ensures along { OnOk result (WalksAlong plan.now front.old.walk.pool (way_seen path.now) front.new.walk) }
{
    let last = Last {
        point: path.end as usize,
        card,
    };
    let Ok(()) = arrive(&mut front.walk, plan, &front.entry, &front.clock, last) else {
        return Err(NoMemory);
    };
    Ok(())
}

/// The walk along a path, where it goes on from the front that the path shares with the way before,
/// whose walk is given; in `met` is then what is met on the path, in order. No answer depends on
/// the keys.
pub fn follow(
    front: Front,
    plan: &Plan,
    flow: &UnitFlow,
    path: &PathView,
) -> Result<Front, NoMemory>
    requires plan { IsPlan plan.now }
    requires same { flow.now.setting.now ≡ plan.now.setting.now }
    requires graph { (notes : Notes) × IsGraphOf flow.now.setting.now.scene.now.dialect
        flow.now.setting.now.book.now.unit.now notes flow.now.graph.now }
    requires ready { (p : Program) × IsReady front.walk.pool plan.now.setting.now.scene.now p }
    requires front { (before : List OneStep) × SharesSteps path.now.shared before path.now.steps.now
        × IsFront plan.now.setting.now before (length before) front }
    ensures grows { IfOk result (λ next. Grows front.walk.pool next.walk.pool) }
    ensures front { IfOk result (λ next. IsFront plan.now.setting.now path.now.steps.now
        (length path.now.steps.now) next) }
    ensures along { IfOk result (λ next. WalksAlong plan.now front.walk.pool (way_seen path.now) next.walk) }
{
    let Ok(standing) = stand(front, plan, path) else {
        return Err(NoMemory);
    };
    let Standing {
        mut front,
        place,
        card,
    } = standing;
    let Ok(last) = go(&mut front, flow, path.steps, place, card) else {
        return Err(NoMemory);
    };
    let Ok(()) = finish(&mut front, plan, path, last) else {
        return Err(NoMemory);
    };
    Ok(front)
}
