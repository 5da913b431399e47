// The graph of a unit's flow.
ghost use Rattle.std.specs.Prelude.{◌≡◌, ◌<◌, IsTrue, IfOk, length};
ghost use Rattle.fort_syntax.specs.DeckOrder.{stand_between};
ghost use Rattle.flow_tests.specs.Tests.{IsFlowing};
ghost use Rattle.flow_cycles.specs.Routes.{TellsFirstUncut, TellsRoutes};

use edge_io::{List, NoMemory};
use flow_forks::{Flow, flow_of};
use flow_nodes::{Cycles, cycles_of};
use fort_model::Graph;
use fort_syntax::{Dialect, Fault, Rule, Unit};
use std::alloc::Global;

/// The flow of a unit with cut points.
#[derive(Debug, Drop)]
pub enum Routes {
    /// Each cycle has a cut point: the graph with ranks.
    Whole(Graph),
    /// The fault by rule 31 at the first statement that lies on a cycle without a cut point.
    Uncut(Fault),
}

/// The fault by rule 31 at the first statement on a cycle without a cut point.
fn uncut(dialect: Dialect, unit: &Unit, cuts: &List<u32>, point: usize) -> Routes
    requires cards { IsTrue (stand_between unit.now.head unit.now.lines unit.now.«end») }
    requires inside { point < length unit.now.lines }
    requires first { TellsFirstUncut dialect unit.now cuts.now point }
    ensures { TellsRoutes dialect unit.now cuts.now result }
{
    let line = &unit.lines.as_slice()[point];
    Routes::Uncut(Fault {
        rule: Rule::UncutCycle,
        card: line.card,
    })
}

/// The graph of a unit's flow in a dialect, where ASSERTs stand at the points `cuts`; or the first fault by
/// rule 31, a statement that lies on a cycle without an ASSERT; or want of memory. The last statements of the
/// unit's DOs stand in it, its logical IFs carry what they may, it has fewer than 1,073,741,824 statements, and
/// their cards ascend. It takes time and memory for each statement and each label in one alone.
pub fn routes_of(
    alloc: Global,
    dialect: Dialect,
    unit: &Unit,
    cuts: List<u32>,
) -> Result<Routes, NoMemory>
    requires flowing { IsFlowing unit.now }
    requires cards { IsTrue (stand_between unit.now.head unit.now.lines unit.now.«end») }
    ensures { IfOk result (TellsRoutes dialect unit.now cuts) }
{
    let Ok(flow) = flow_of(alloc, dialect, unit) else {
        return Err(NoMemory);
    };
    let Flow { starts, forks } = flow;
    let Ok(cycles) = cycles_of(alloc, starts.as_slice(), forks.as_slice(), cuts.as_slice()) else {
        return Err(NoMemory);
    };
    match cycles {
        Cycles::First(point) => Ok(uncut(dialect, unit, &cuts, point)),
        Cycles::Free(ranks) => Ok(Routes::Whole(Graph {
            starts: List::from_vec(starts),
            forks: List::from_vec(forks),
            cuts,
            ranks,
            size: unit.lines.as_slice().len() as u32,
        })),
    }
}
