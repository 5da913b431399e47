// The graph of calls.
ghost use Rattle.std.specs.Prelude.{◌≡◌, IfOk};
ghost use Rattle.call_order.specs.CallGraphs.{call_graph, callees};

use call_sites::{Book, DeckBook, sites_of_unit};
use edge_io::{List, NoMemory};
use std::alloc::Global;

/// The numbers of the units that the calls of the book's unit are of, in the order of the text; a call of no unit has none.
pub fn callees_of(alloc: Global, deck: &DeckBook, book: &Book) -> Result<List<usize>, NoMemory>
    ensures { IfOk result (λ row. row ≡ callees deck.now.units.now book.now.unit.now) }
{
    let Ok(sites) = sites_of_unit(alloc, book) else {
        return Err(NoMemory);
    };
    let mut row = Vec::new(alloc);
    let calls = sites.as_slice();
    for site in calls {
        if let Some(number) = deck.callee(site) {
            if row.push(number).is_err() {
                return Err(NoMemory);
            }
        }
    }
    Ok(List::from_vec(row))
}

/// For each unit the numbers of the units that its calls are of.
pub fn call_graph(alloc: Global, deck: &DeckBook) -> Result<Vec<List<usize>>, NoMemory>
    ensures { IfOk result (λ rows. rows.items ≡ call_graph deck.now.units.now) }
{
    let mut rows = Vec::new(alloc);
    for i in 0..deck.units.len() {
        let Ok(row) = callees_of(alloc, deck, deck.book(i)) else {
            return Err(NoMemory);
        };
        let Ok(()) = rows.push(row) else {
            return Err(NoMemory);
        };
    }
    Ok(rows)
}
