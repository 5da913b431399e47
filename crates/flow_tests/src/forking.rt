// A fork more.
ghost use Rattle.std.specs.Prelude.{◌≡◌, ◌<◌, [], ◌∷◌, ℕ, length, Some, slice_get, IfOk};
ghost use Rattle.fort_model.specs.Graphs.{IsForkTo};
ghost use Rattle.flow_tests.specs.Growing.{AreFalling, AreWithin, Grown};

use edge_io::{List, NoMemory};
use fort_model::{Fork, Target};
use std::alloc::Global;

/// The target at a place.
pub fn target_at(targets: &[Target], at: usize) -> Target
    requires { at < length targets.now }
    ensures { slice_get targets.now at ≡ Some result }
{
    targets[at]
}

/// Two targets, or want of memory.
pub fn two(alloc: Global, first: Target, second: Target) -> Result<List<Target>, NoMemory>
    ensures { IfOk result (λ l. l ≡ first ∷ second ∷ []) }
{
    let mut all = Vec::with_capacity(alloc, 2)?;
    let Ok(()) = all.push(first) else {
        return Err(NoMemory);
    };
    let Ok(()) = all.push(second) else {
        return Err(NoMemory);
    };
    Ok(List::from_vec(all))
}

/// Puts a fork behind the others, and leads to it; or wants memory. It is the test of the DO at a point, or none. Where the
/// others lead to points and lesser forks, and its targets are such, so it stays.
pub fn put_fork(
    forks: &mut Vec<Fork>,
    tested: Option<u32>,
    targets: List<Target>,
) -> Result<Target, NoMemory>
    requires few { length forks.old.items < 4294967296 }
    ensures fork { IfOk result (λ t. IsForkTo forks.new.items t tested targets) }
    ensures grown { IfOk result (λ t. (size : ℕ) → AreFalling size forks.old.items
        → AreWithin size (length forks.old.items) targets
        → Grown size 1 forks.old.items forks.new.items t) }
{
    let number = forks.len() as u32;
    let Ok(()) = forks.push(Fork { tested, targets }) else {
        return Err(NoMemory);
    };
    Ok(Target::Fork(number))
}
