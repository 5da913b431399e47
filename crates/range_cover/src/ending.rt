// The range that ends first.
ghost use Rattle.std.specs.Prelude.{◌≡◌, ◌<◌, ◌≤◌, ℕ, suc, length, get_or, replicate, IfOk};
ghost use Rattle.range_cover.specs.Covers.{AreEnds, AreNear, IsSoonest};

use edge_io::NoMemory;
use std::alloc::Global;

fn filled(alloc: Global, count: usize, value: usize) -> Result<Vec<usize>, NoMemory>
    ensures { IfOk result (λ v. v.items ≡ replicate count value) }
{
    let mut all = Vec::with_capacity(alloc, count)?;
    for _ in 0..count {
        let Ok(()) = all.push(value) else {
            return Err(NoMemory);
        };
    }
    Ok(all)
}

/// Puts in the range that begins behind a point.
fn put(far: &[usize], nears: &mut Vec<usize>, begin: usize)
    requires ends { AreEnds far.now }
    requires long { length nears.old.items ≡ length far.now }
    requires begin { begin < length far.now }
    requires near { AreNear far.now (suc begin) nears.old.items }
    ensures long { length nears.new.items ≡ length far.now }
    ensures near { AreNear far.now begin nears.new.items }
{
    let end = far[begin];
    if begin < end {
        nears[end] = begin + 1;
    }
}

/// For each point the first point of the range that ends there and begins first.
fn nears(alloc: Global, far: &[usize]) -> Result<Vec<usize>, NoMemory>
    requires ends { AreEnds far.now }
    ensures long { IfOk result (λ v. length v.items ≡ length far.now) }
    ensures near { IfOk result (λ v. AreNear far.now 0 v.items) }
{
    let count = far.len();
    let mut nears = filled(alloc, count, count)?;
    for step in 0..count {
        put(far, &mut nears, count - 1 - step);
    }
    Ok(nears)
}

/// The last point of the range that covers a point and ends first, by those of the points behind it.
fn soonest(far: &[usize], nears: &[usize], lasts: &[usize], point: usize) -> usize
    requires ends { AreEnds far.now }
    requires long { length nears.now ≡ length far.now }
    requires near { AreNear far.now 0 nears.now }
    requires lasts_long { length lasts.now ≡ suc (length far.now) }
    requires point { point < length far.now }
    requires behind { (k : ℕ) → point < k → k ≤ length far.now → IsSoonest far.now k (get_or lasts.now k 0) }
    ensures { IsSoonest far.now point result }
{
    let mut at = point;
    while at < far.len() && nears[at] > point {
        at = lasts[at + 1];
    }
    at
}

/// Puts in the last point for a point.
fn pass(far: &[usize], nears: &[usize], lasts: &mut Vec<usize>, point: usize)
    requires ends { AreEnds far.now }
    requires long { length nears.now ≡ length far.now }
    requires near { AreNear far.now 0 nears.now }
    requires lasts_long { length lasts.old.items ≡ suc (length far.now) }
    requires point { point < length far.now }
    requires behind { (k : ℕ) → point < k → k ≤ length far.now → IsSoonest far.now k
        (get_or lasts.old.items k 0) }
    ensures long { length lasts.new.items ≡ suc (length far.now) }
    ensures from { (k : ℕ) → point ≤ k → k ≤ length far.now → IsSoonest far.now k
        (get_or lasts.new.items k 0) }
{
    let last = soonest(far, nears, lasts.as_slice(), point);
    lasts[point] = last;
}

/// For each point, and the number of points, the last point of the range that covers it and ends first.
pub(crate) fn lasts(alloc: Global, far: &[usize]) -> Result<Vec<usize>, NoMemory>
    requires ends { AreEnds far.now }
    ensures long { IfOk result (λ v. length v.items ≡ suc (length far.now)) }
    ensures each { IfOk result (λ v. (q : ℕ) → q ≤ length far.now → IsSoonest far.now q
        (get_or v.items q 0)) }
{
    let count = far.len();
    let nears = nears(alloc, far)?;
    let mut lasts = filled(alloc, count + 1, count)?;
    for step in 0..count {
        pass(far, nears.as_slice(), &mut lasts, count - 1 - step);
    }
    Ok(lasts)
}
