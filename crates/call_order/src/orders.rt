// The order of calls.
ghost use Rattle.std.specs.Prelude.{◌≡◌, IfOk};
ghost use Rattle.call_order.specs.CallGraphs.{AreInOrder, AreOrdered, HaveNoRecursion, call_graph};
ghost use Rattle.call_order.specs.Orderings.{TellsOrdering};

use crate::edges::call_graph;
use crate::numbers::{small_all, small_rows};
use call_sites::DeckBook;
use digraph::{least_on_cycle, order, orders_tell_cycles};
use edge_io::{List, NoMemory};
use std::alloc::Global;

/// All units, each behind those that it calls, of two that could stand next the earlier one; and for each unit the numbers of
/// the units that its calls are of. Units are counted from 0.
#[derive(Debug, Drop)]
pub struct Ordered {
    pub order: List<u32>,
    pub callees: List<List<u32>>,
}

/// The order, or the first unit that calls itself, directly or through others.
#[derive(Debug, Drop)]
pub enum Ordering {
    /// No unit calls itself.
    Acyclic(Ordered),
    /// The number of the first unit that does.
    Recursive(usize),
}

/// The order of units of which none calls itself.
fn in_order(alloc: Global, deck: &DeckBook, graph: &[List<usize>]) -> Result<Ordered, NoMemory>
    requires order { AreInOrder deck.now.units.now }
    requires graph { graph.now ≡ call_graph deck.now.units.now }
    requires acyclic { HaveNoRecursion deck.now.units.now }
    ensures { IfOk result (λ found. AreOrdered deck.now.units.now found.order found.callees) }
{
    orders_tell_cycles();
    let Ok(order) = order(alloc, graph) else {
        return Err(NoMemory);
    };
    let Ok(order) = small_all(alloc, deck.units, order.as_slice()) else {
        return Err(NoMemory);
    };
    let Ok(callees) = small_rows(alloc, deck.units, graph) else {
        return Err(NoMemory);
    };
    Ok(Ordered { order, callees })
}

fn acyclic(alloc: Global, deck: &DeckBook, graph: &[List<usize>]) -> Result<Ordering, NoMemory>
    requires order { AreInOrder deck.now.units.now }
    requires graph { graph.now ≡ call_graph deck.now.units.now }
    requires acyclic { HaveNoRecursion deck.now.units.now }
    ensures { IfOk result (TellsOrdering deck.now.units.now) }
{
    let Ok(found) = in_order(alloc, deck, graph) else {
        return Err(NoMemory);
    };
    Ok(Ordering::Acyclic(found))
}

/// The order of the units of a deck, or the first of them that calls itself.
pub fn call_order(alloc: Global, deck: &DeckBook) -> Result<Ordering, NoMemory>
    requires { AreInOrder deck.now.units.now }
    ensures { IfOk result (TellsOrdering deck.now.units.now) }
{
    let Ok(graph) = call_graph(alloc, deck) else {
        return Err(NoMemory);
    };
    let Ok(found) = least_on_cycle(alloc, graph.as_slice()) else {
        return Err(NoMemory);
    };
    match found {
        Some(number) => Ok(Ordering::Recursive(number)),
        None => acyclic(alloc, deck, graph.as_slice()),
    }
}
