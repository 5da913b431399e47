// One unit after the other.
ghost use Rattle.std.specs.Prelude.{◌≡◌, ◌<◌, List, length, Err, IfOk};
ghost use Rattle.formula.specs.declared.node.Node.{Node};
ghost use Rattle.fort_syntax.specs.declared.refusal.Fault.{Fault};
ghost use Rattle.fort_syntax.specs.declared.refusal.Refusal.TheVariants.{Broken};
ghost use Rattle.fort_model.specs.Program.{Program};
ghost use Rattle.fort_model.specs.Stages.{IsFirstBroken, KeepsAll, rules_of_flow};
ghost use Rattle.path_scene.specs.Graphs.{AreGraphsOf};
ghost use Rattle.path_scene.specs.Scenes.{IsReady};
ghost use Rattle.flow_stage.specs.Units.{IsUnitSeen, AreUnitsSeen};

use edge_io::{Keys, NoMemory};
use flow_graph::graph;
use fort_model::Graph;
use fort_syntax::{Fault, Refusal};
use path_scene::Scene;
use std::alloc::Global;
use unit_faults::sooner;

/// Adds the graph of the unit of a number; or its first fault, and then the graphs don't count.
fn add_unit(
    alloc: Global,
    keys: Keys,
    scene: &Scene,
    number: usize,
    graphs: &mut Vec<Graph>,
) -> Result<Option<Fault>, NoMemory>
    requires unit { number < length scene.now.books.now.units.now }
    requires ready { (pool : List Node) × (p : Program) × IsReady pool scene.now p }
    ensures { IfOk result (IsUnitSeen scene.now number graphs.old.items graphs.new.items) }
{
    match graph(alloc, keys, scene, number) {
        Ok(found) => {
            let Ok(()) = graphs.push(found) else {
                return Err(NoMemory);
            };
            Ok(None)
        }
        Err(Refusal::Broken(fault)) => Ok(Some(fault)),
        Err(Refusal::NoMemory) => Err(NoMemory),
    }
}

/// The graphs of units, and their first fault.
#[derive(Drop)]
struct Seen {
    graphs: Vec<Graph>,
    first: Option<Fault>,
}

fn all_seen(alloc: Global, keys: Keys, scene: &Scene) -> Result<Seen, NoMemory>
    requires ready { (pool : List Node) × (p : Program) × IsReady pool scene.now p }
    ensures { IfOk result (λ seen. AreUnitsSeen scene.now (length scene.now.books.now.units.now)
        seen.graphs.items seen.first) }
{
    let mut graphs = Vec::new(alloc);
    let mut first = None;
    for number in 0..scene.books.units.len() {
        let Ok(fault) = add_unit(alloc, keys, scene, number, &mut graphs) else {
            return Err(NoMemory);
        };
        first = sooner(first, fault);
    }
    Ok(Seen { graphs, first })
}

/// The graphs of the units of a program, in their order, where it keeps all rules before those on the flow. Ok:
/// the graphs, and the program keeps rules 29, 30 and 31. Broken: its first fault by these rules, on the least
/// card and there of the least number. Else memory was wanted and not had. No answer depends on the keys.
pub fn graphs(alloc: Global, keys: Keys, scene: &Scene) -> Result<Vec<Graph>, Refusal>
    requires ready { (pool : List Node) × (p : Program) × IsReady pool scene.now p }
    ensures graphs { IfOk result (λ graphs. (pool : List Node) (p : Program)
        → IsReady pool scene.now p → AreGraphsOf p graphs.items) }
    ensures kept { IfOk result (λ _. (pool : List Node) (p : Program) → IsReady pool scene.now p
        → KeepsAll p rules_of_flow) }
    ensures broken { (f : Fault) → result ≡ Err (Broken f) → (pool : List Node) (p : Program)
        → IsReady pool scene.now p → IsFirstBroken p rules_of_flow f }
{
    let Ok(seen) = all_seen(alloc, keys, scene) else {
        return Err(Refusal::NoMemory);
    };
    let Seen { graphs, first } = seen;
    match first {
        None => Ok(graphs),
        Some(fault) => Err(Refusal::Broken(fault)),
    }
}
