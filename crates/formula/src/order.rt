// The nodes that a term is made of.
ghost use Rattle.std.specs.Prelude.{◌≡◌, ◌∷◌, [], ◌++◌, ◌+◌, length, map, reverse, IfOk, OnOk, IsPermutation};
ghost use Rattle.std.specs.BinaryHeap.{IsHeap, heap_items, heap_len};
ghost use Rattle.std.specs.Ordering.{nat_cmp};
ghost use Rattle.formula.specs.Order.{IsOrder};
ghost use Rattle.formula.specs.Pool.{IsIn, arguments_at};

use crate::{TermId, TermPool};
use edge_io::{List, NoMemory};
use std::alloc::Global;
use std::collections::BinaryHeap;

/// The ids that a term is made of, in the order of their places: that of the term, which stands
/// last, and those of its arguments, of their arguments, and so on, each once. Each stands behind
/// its arguments. It takes time and memory in the number of arguments of these nodes, whatever the
/// pool has beside them.
pub fn order_of(alloc: Global, pool: &TermPool, id: TermId) -> Result<List<TermId>, NoMemory>
    requires { IsIn pool.now id }
    ensures { IfOk result (IsOrder pool.now id) }
{
    let mut found = descending(alloc, pool, id)?;
    found.as_mut_slice().reverse();
    Ok(List::from_vec(found))
}

/// The same, from the greatest place down.
fn descending(alloc: Global, pool: &TermPool, id: TermId) -> Result<Vec<TermId>, NoMemory>
    requires { IsIn pool.now id }
    ensures { IfOk result (λ found. IsOrder pool.now id (reverse found.items)) }
{
    let count = pool.count();
    prove!(id.index() < count);
    let mut found = Vec::new(alloc);
    let mut waiting = BinaryHeap::new(alloc);
    visit(pool, id, &mut found, &mut waiting)?;
    let mut least = id.place;
    while let Some(place) = waiting.pop() {
        if place < least {
            least = place;
            visit(pool, TermId { place }, &mut found, &mut waiting)?;
        }
    }
    Ok(found)
}

/// Puts an id behind those that were found, and its arguments among those that wait.
fn visit(
    pool: &TermPool,
    id: TermId,
    found: &mut Vec<TermId>,
    waiting: &mut BinaryHeap<u32>,
) -> Result<(), NoMemory>
    requires { IsIn pool.now id }
    ensures found { OnOk result (found.new.items ≡ found.old.items ++ id ∷ []) }
    ensures waiting { OnOk result (IsPermutation (heap_items waiting.old ++ map (λ a. a.place)
        (arguments_at pool.now id)) (heap_items waiting.new)) }
    ensures count { OnOk result (heap_len waiting.new ≡ heap_len waiting.old + length
        (arguments_at pool.now id)) }
    ensures heap { OnOk result (IsHeap nat_cmp (heap_items waiting.old)
        → IsHeap nat_cmp (heap_items waiting.new)) }
{
    if found.push(id).is_err() {
        return Err(NoMemory);
    }
    wait(pool.arguments(id), waiting)
}

/// Puts the places of some ids among those that wait.
fn wait(ids: &[TermId], waiting: &mut BinaryHeap<u32>) -> Result<(), NoMemory>
    ensures waiting { OnOk result (IsPermutation (heap_items waiting.old ++ map
        (λ a. a.place) ids.now) (heap_items waiting.new)) }
    ensures count { OnOk result (heap_len waiting.new ≡ heap_len waiting.old + length ids.now) }
    ensures heap { OnOk result (IsHeap nat_cmp (heap_items waiting.old)
        → IsHeap nat_cmp (heap_items waiting.new)) }
{
    for id in ids {
        let Ok(()) = waiting.push(id.place) else {
            return Err(NoMemory);
        };
    }
    Ok(())
}
