// The conditions along paths.
ghost use Rattle.std.specs.Prelude.{◌≡◌, List, length, IfOk};
ghost use Rattle.fort_model.specs.Graphs.{IsGraphOf};
ghost use Rattle.fort_model.specs.Program.{Program};
ghost use Rattle.fort_notes.specs.Assertions.{Notes};
ghost use Rattle.path_cond.specs.Found.{AddsPath, AddsPaths, AreFewIn, HasFewChecks, IsDraft, IsGraphIn, StartsIn, drafts_of};
ghost use Rattle.path_cut.specs.Cursor.{way_seen};
ghost use Rattle.path_cut.specs.Ways.{ways_of};
ghost use Rattle.path_cut.specs.declared.step.Step.{Step};
ghost use Rattle.path_fronts.specs.Fronts.{IsFront};
ghost use Rattle.path_plans.specs.Plans.{IsPlan};
ghost use Rattle.path_scene.specs.Scenes.{IsReady};
ghost use Rattle.shared_fronts.specs.Firsts.{SharesSteps};

use crate::found::Drafts;
use crate::walked::Walked;
use edge_io::NoMemory;
use met_conditions::{Along, add_conditions};
use path_cut::{PathView, Paths};
use path_fronts::follow;
use path_plans::Plan;
use walk_flow::UnitFlow;

/// Adds the conditions of a path of a number. The walk goes on from the front that the path shares
/// with the one before.
fn add_path(
    walked: Walked,
    plan: &Plan,
    flow: &UnitFlow,
    path: &PathView,
    number: u32,
) -> Result<Walked, NoMemory>
    requires plan { IsPlan plan.now }
    requires same { flow.now.setting.now ≡ plan.now.setting.now }
    requires graph { (notes : Notes) × IsGraphOf flow.now.setting.now.scene.now.dialect
        flow.now.setting.now.book.now.unit.now notes flow.now.graph.now }
    requires ready { (p : Program) × IsReady walked.front.walk.pool plan.now.setting.now.scene.now p }
    requires start { StartsIn walked.front.walk.pool plan.now path.now.start }
    requires few { HasFewChecks walked.front.walk.pool plan.now (way_seen path.now) }
    requires front { (before : List Step) × SharesSteps path.now.shared before path.now.steps.now
        × IsFront plan.now.setting.now before (length before) walked.front }
    requires drafts { IsDraft (drafts_of walked) }
    ensures front { IfOk result (λ next. IsFront plan.now.setting.now path.now.steps.now
        (length path.now.steps.now) next.front) }
    ensures adds { IfOk result (λ next. AddsPath plan.now (way_seen path.now) number
        (drafts_of walked) (drafts_of next)) }
{
    let Walked {
        alloc,
        front,
        mut conditions,
    } = walked;
    let Ok(front) = follow(front, plan, flow, path) else {
        return Err(NoMemory);
    };
    let along = Along {
        unit: plan.setting.book.unit.name,
        path: number,
    };
    let Ok(()) = add_conditions(alloc, &along, &front.walk.met, &mut conditions) else {
        return Err(NoMemory);
    };
    Ok(Walked {
        alloc,
        front,
        conditions,
    })
}

/// Adds the conditions of the paths through the graph of a unit, in order. The paths are fewer than
/// 2^32, and so are the checks along each.
pub(crate) fn add_paths(drafts: Drafts, plan: &Plan, flow: &UnitFlow) -> Result<Drafts, NoMemory>
    requires plan { IsPlan plan.now }
    requires same { flow.now.setting.now ≡ plan.now.setting.now }
    requires graph { IsGraphIn drafts.pool plan.now flow.now.graph.now }
    requires few { AreFewIn drafts.pool plan.now flow.now.graph.now }
    requires ready { (p : Program) × IsReady drafts.pool plan.now.setting.now.scene.now p }
    requires drafts { IsDraft drafts }
    ensures { IfOk result (AddsPaths plan.now 1 (ways_of flow.now.graph.now) drafts) }
{
    let Ok(mut paths) = Paths::new(drafts.alloc, flow.graph) else {
        return Err(NoMemory);
    };
    let mut walked = Walked::new(drafts);
    let mut number: u32 = 0;
    let mut more = paths.advance();
    while more {
        let Some(path) = paths.view() else {
            unreachable!()
        };
        number += 1;
        let Ok(after) = add_path(walked, plan, flow, &path, number) else {
            return Err(NoMemory);
        };
        walked = after;
        let next = paths.advance();
        more = next;
    }
    Ok(walked.drafts())
}
