// Cycles of the flow.
ghost use Rattle.std.specs.Prelude.{IfOk};
ghost use Rattle.flow_nodes.specs.Nodes.{IsRouted};
ghost use Rattle.flow_nodes.specs.Cycles.{TellsCycles};

use crate::numbers::ranks_of;
use crate::rows::rows_of;
use digraph::least_on_cycle;
use edge_io::{List, NoMemory};
use fort_model::{Fork, Target};
use std::alloc::Global;

/// What is told of the cycles of a flow.
#[derive(Debug, Drop)]
pub enum Cycles {
    /// None is without a cut point: a number for each statement, which grows along each way through forks and statements without
    /// cut points.
    Free(List<u32>),
    /// The first statement that lies on a cycle without a cut point.
    First(usize),
}

/// The first statement that lies on a cycle without a cut point, or where there is none numbers; or want of memory. It takes time
/// and memory for each statement, each fork and each target alone.
pub fn cycles_of(
    alloc: Global,
    starts: &[Target],
    forks: &[Fork],
    cuts: &[u32],
) -> Result<Cycles, NoMemory>
    requires { IsRouted starts.now forks.now }
    ensures { IfOk result (TellsCycles starts.now forks.now cuts.now) }
{
    let rows = rows_of(alloc, starts, forks, cuts)?;
    let Ok(found) = least_on_cycle(alloc, rows.as_slice()) else {
        return Err(NoMemory);
    };
    if let Some(point) = found {
        return Ok(Cycles::First(point));
    }
    let Ok(ranks) = ranks_of(alloc, starts.len(), rows.as_slice()) else {
        return Err(NoMemory);
    };
    Ok(Cycles::Free(ranks))
}
