// The conditions of units.
ghost use Rattle.std.specs.Prelude.{◌<◌, length, IfOk};
ghost use Rattle.fort_model.specs.Program.{Program};
ghost use Rattle.path_cond.specs.Found.{AddsUnit, AreFewAt, IsDraft, IsGraphAt};
ghost use Rattle.path_scene.specs.Scenes.{IsReady};
ghost use Rattle.unit_tables.specs.UnitTables.{AreUnitNumbers};

use crate::along::add_paths;
use crate::found::Drafts;
use edge_io::NoMemory;
use fort_model::Graph;
use path_plans::Plan;
use path_scene::Scene;
use unit_tables::UnitNumbers;
use walk_flow::UnitFlow;
use walk_setting::Setting;

/// Adds the conditions of the unit of a number, by its graph.
pub(crate) fn add_unit(
    drafts: Drafts,
    scene: &Scene,
    numbers: &UnitNumbers,
    number: usize,
    graph: &Graph,
) -> Result<Drafts, NoMemory>
    requires within { number < length scene.now.books.now.units.now }
    requires numbers { AreUnitNumbers scene.now.books.now.units.now numbers.now }
    requires ready { (p : Program) × IsReady drafts.pool scene.now p }
    requires graph { IsGraphAt drafts.pool scene.now number graph.now }
    requires few { AreFewAt drafts.pool scene.now number graph.now }
    requires drafts { IsDraft drafts }
    ensures { IfOk result (AddsUnit scene.now number drafts) }
{
    let setting = Setting::new(scene, numbers, number);
    let keys = drafts.pool.keys();
    let Ok(plan) = Plan::new(drafts.alloc, keys, &setting) else {
        return Err(NoMemory);
    };
    let Ok(flow) = UnitFlow::new(drafts.alloc, keys, &setting, graph) else {
        return Err(NoMemory);
    };
    let Ok(after) = add_paths(drafts, &plan, &flow) else {
        return Err(NoMemory);
    };
    Ok(after)
}
