// The graph of a unit, or its first fault.
ghost use Rattle.std.specs.Prelude.{◌≡◌, ◌<◌, List, length, Some, None, Err, IfOk};
ghost use Rattle.formula.specs.declared.node.Node.{Node};
ghost use Rattle.fort_syntax.specs.declared.refusal.Fault.{Fault};
ghost use Rattle.fort_syntax.specs.declared.refusal.Refusal.TheVariants.{Broken};
ghost use Rattle.fort_model.specs.Program.{Program};
ghost use Rattle.path_scene.specs.Scenes.{IsReady};
ghost use Rattle.unit_faults.specs.Sooner.{comes_first, sooner};
ghost use Rattle.flow_cycles.specs.Routes.{fault_in};
ghost use Rattle.flow_cycles.specs.declared.graphs.Routes.TheVariants.{Whole};
ghost use Rattle.flow_graph.specs.Units.{IsGraphOfUnit, TellsFlow};

use crate::early::early_fault;
use crate::routes::routes_in;
use edge_io::Keys;
use flow_cycles::Routes;
use fort_model::Graph;
use fort_syntax::{Fault, Refusal};
use path_scene::Scene;
use std::alloc::Global;

/// Whether a fault stands before another, or is it.
fn comes_first(fault: &Fault, other: &Fault) -> bool
    ensures { result ≡ comes_first fault.now other.now }
{
    fault.card < other.card
        || (fault.card == other.card && fault.rule.number() <= other.rule.number())
}

/// The sooner of a fault that there may be and one that there is.
fn soonest(early: Option<Fault>, uncut: Fault) -> Fault
    ensures { sooner early (Some uncut) ≡ Some result }
{
    let Some(first) = early else {
        return uncut;
    };
    if comes_first(&first, &uncut) {
        first
    } else {
        uncut
    }
}

/// The graph, where there is no fault; else the first fault.
fn decided(routes: Routes, early: Option<Fault>) -> Result<Graph, Refusal>
    ensures graph { IfOk result (λ g. (routes ≡ Whole g) × (early ≡ None)) }
    ensures broken { (f : Fault) → result ≡ Err (Broken f) → sooner early (fault_in routes) ≡ Some f }
{
    match routes {
        Routes::Whole(graph) => match early {
            None => Ok(graph),
            Some(fault) => Err(Refusal::Broken(fault)),
        },
        Routes::Uncut(uncut) => Err(Refusal::Broken(soonest(early, uncut))),
    }
}

/// The graph of the unit of a number, counted from 0, of a program that keeps all rules before those on the flow. Ok: the graph,
/// and the unit keeps rules 29, 30 and 31. Broken: the first fault of the unit by these rules, on the least card and there of the
/// least number. Else memory was wanted and not had. No answer depends on the keys.
pub fn graph(alloc: Global, keys: Keys, scene: &Scene, number: usize) -> Result<Graph, Refusal>
    requires unit { number < length scene.now.books.now.units.now }
    requires ready { (pool : List Node) × (p : Program) × IsReady pool scene.now p }
    ensures graph { IfOk result (IsGraphOfUnit scene.now number) }
    ensures kept { IfOk result (λ _. TellsFlow scene.now number None) }
    ensures broken { (f : Fault) → result ≡ Err (Broken f) → TellsFlow scene.now number (Some f) }
{
    let Ok(early) = early_fault(alloc, keys, scene, number) else {
        return Err(Refusal::NoMemory);
    };
    let Ok(routes) = routes_in(alloc, scene, number) else {
        return Err(Refusal::NoMemory);
    };
    decided(routes, early)
}
