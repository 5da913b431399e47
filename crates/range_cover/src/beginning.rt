// The range that begins last.
ghost use Rattle.std.specs.Prelude.{◌≡◌, ◌<◌, ℕ, length, get_or, IfOk};
ghost use Rattle.range_cover.specs.Covers.{IsInnermost};

use edge_io::NoMemory;
use std::alloc::Global;

/// The first point of the range that covers a point and begins last, by those of the points before it.
fn innermost(far: &[usize], firsts: &[usize], point: usize) -> usize
    requires point { point < length far.now }
    requires long { length firsts.now ≡ point }
    requires before { (k : ℕ) → k < point → IsInnermost far.now k (get_or firsts.now k 0) }
    ensures { IsInnermost far.now point result }
{
    let mut at = point;
    while at > 0 && far[at - 1] < point {
        at = firsts[at - 1];
    }
    at
}

/// For each point the first point of the range that covers it and begins last.
pub(crate) fn firsts(alloc: Global, far: &[usize]) -> Result<Vec<usize>, NoMemory>
    ensures long { IfOk result (λ v. length v.items ≡ length far.now) }
    ensures each { IfOk result (λ v. (q : ℕ) → q < length far.now → IsInnermost far.now q
        (get_or v.items q 0)) }
{
    let mut firsts = Vec::with_capacity(alloc, far.len())?;
    for point in 0..far.len() {
        let first = innermost(far, firsts.as_slice(), point);
        let Ok(()) = firsts.push(first) else {
            return Err(NoMemory);
        };
    }
    Ok(firsts)
}
