// Numbers that grow along each way.
ghost use Rattle.std.specs.Prelude.{◌≡◌, ◌<◌, ◌≤◌, length, reverse, replicate, take, All, IfOk};
ghost use Rattle.digraph.specs.Graphs.{IsGraph, IsAcyclic};
ghost use Rattle.digraph.specs.Ranks.{ranks_after};
ghost use Rattle.flow_nodes.specs.Cycles.{AreNumbers};

use digraph::order;
use edge_io::{List, NoMemory};
use std::alloc::Global;

fn zeros(alloc: Global, count: usize) -> Result<Vec<u32>, NoMemory>
    ensures { IfOk result (λ w. w.items ≡ replicate count 0) }
{
    let mut numbers = Vec::with_capacity(alloc, count)?;
    for _ in 0..count {
        let Ok(()) = numbers.push(0) else {
            return Err(NoMemory);
        };
    }
    Ok(numbers)
}

/// The places of nodes in an order, counted from its end.
fn numbered(alloc: Global, count: usize, mut order: Vec<usize>) -> Result<Vec<u32>, NoMemory>
    requires inside { All (λ q. q < count) order.items }
    requires few { length order.items < 4294967296 }
    ensures { IfOk result (λ r. r.items ≡ ranks_after (replicate count 0) 0 (reverse order.items)) }
{
    let mut ranks = zeros(alloc, count)?;
    let mut rank: u32 = 0;
    while let Some(point) = order.pop() {
        ranks[point] = rank;
        rank += 1;
    }
    Ok(ranks)
}

fn first(alloc: Global, size: usize, numbers: &[u32]) -> Result<List<u32>, NoMemory>
    requires { size ≤ length numbers.now }
    ensures { IfOk result (λ list. list ≡ take size numbers.now) }
{
    let mut list = Vec::with_capacity(alloc, size)?;
    for i in 0..size {
        let Ok(()) = list.push(numbers[i]) else {
            return Err(NoMemory);
        };
    }
    Ok(List::from_vec(list))
}

/// Numbers for the first nodes of a graph without cycles.
pub(crate) fn ranks_of(
    alloc: Global,
    size: usize,
    graph: &[List<usize>],
) -> Result<List<u32>, NoMemory>
    requires graph { IsGraph graph.now }
    requires acyclic { IsAcyclic graph.now }
    requires few { length graph.now < 4294967296 }
    requires size { size ≤ length graph.now }
    ensures { IfOk result (AreNumbers graph.now size) }
{
    let order = order(alloc, graph)?;
    let ranks = numbered(alloc, graph.len(), order)?;
    let Ok(list) = first(alloc, size, ranks.as_slice()) else {
        return Err(NoMemory);
    };
    Ok(list)
}
