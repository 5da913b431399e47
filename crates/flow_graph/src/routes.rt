// Rule 31, and the graph.
ghost use Rattle.std.specs.Prelude.{◌≡◌, ◌<◌, List, length, map, IfOk};
ghost use Rattle.formula.specs.declared.node.Node.{Node};
ghost use Rattle.fort_model.specs.Program.{Program};
ghost use Rattle.path_scene.specs.Scenes.{IsReady};
ghost use Rattle.flow_graph.specs.Units.{TellsRoutesIn};

use edge_io::{List, NoMemory};
use flow_cycles::{Routes, routes_of};
use fort_notes::AssertSpec;
use path_scene::Scene;
use std::alloc::Global;

/// The points of some ASSERTs.
fn points_of(alloc: Global, asserts: &[AssertSpec]) -> Result<List<u32>, NoMemory>
    ensures { IfOk result (λ points. points ≡ map (λ a. a.line) asserts.now) }
{
    let mut points = Vec::with_capacity(alloc, asserts.len())?;
    for spec in asserts {
        let Ok(()) = points.push(spec.line) else {
            return Err(NoMemory);
        };
    }
    Ok(List::from_vec(points))
}

/// The graph of the unit of a number, or its first fault by rule 31.
pub(crate) fn routes_in(alloc: Global, scene: &Scene, number: usize) -> Result<Routes, NoMemory>
    requires unit { number < length scene.now.books.now.units.now }
    requires ready { (pool : List Node) × (p : Program) × IsReady pool scene.now p }
    ensures { IfOk result (TellsRoutesIn scene.now number) }
{
    let unit = scene.books.book(number).unit;
    let Ok(points) = points_of(alloc, scene.notes[number].asserts.as_slice()) else {
        return Err(NoMemory);
    };
    let Ok(routes) = routes_of(alloc, scene.dialect, unit, points) else {
        return Err(NoMemory);
    };
    Ok(routes)
}
