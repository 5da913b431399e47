// Points that stand at the places of a table.
ghost use Rattle.std.specs.Prelude.{◌≡◌, ◌<◌, ◌∷◌, [], ◌++◌, get_or, replicate, set, IfOk, OnOk};
ghost use Rattle.std.specs.Vec.{vec_len};

use edge_io::{List, NoMemory};
use std::alloc::Global;

/// So many places without a point.
pub(crate) fn places(alloc: Global, count: usize) -> Result<Vec<List<usize>>, NoMemory>
    ensures { IfOk result (λ t. t.items ≡ replicate count []) }
{
    let mut table = Vec::with_capacity(alloc, count)?;
    for _ in 0..count {
        let Ok(()) = table.push(List::from_vec(Vec::new(alloc))) else {
            return Err(NoMemory);
        };
    }
    Ok(table)
}

/// The points at a place, which has none any more.
fn taken(alloc: Global, table: &mut Vec<List<usize>>, place: usize) -> Vec<usize>
    requires { place < vec_len table.old }
    ensures value { result.items ≡ get_or table.old.items place [] }
    ensures rest { table.new.items ≡ set table.old.items place [] }
{
    let list = std::mem::replace(&mut table[place], List::from_vec(Vec::new(alloc)));
    list.into_vec()
}

/// Puts a point behind the others at a place.
pub(crate) fn put(
    alloc: Global,
    table: &mut Vec<List<usize>>,
    place: usize,
    point: usize,
) -> Result<(), NoMemory>
    requires { place < vec_len table.old }
    ensures { OnOk result (table.new.items ≡ set table.old.items place
        (get_or table.old.items place [] ++ point ∷ [])) }
{
    let mut points = taken(alloc, table, place);
    let Ok(()) = points.push(point) else {
        return Err(NoMemory);
    };
    table[place] = List::from_vec(points);
    Ok(())
}
