// Numbers of units: they stand below the cards of heads.
ghost use Rattle.std.specs.Prelude.{◌≡◌, ◌<◌, length, All, IfOk};
ghost use Rattle.call_order.specs.CallGraphs.{AreInOrder};

use edge_io::{List, NoMemory};
use fort_syntax::Unit;
use std::alloc::Global;

/// The number of a unit.
fn small(units: &[Unit], number: usize) -> u32
    requires order { AreInOrder units.now }
    requires number { number < length units.now }
    ensures { result ≡ number }
{
    let head = units[number].head;
    prove!(number < head as usize);
    number as u32
}

/// Numbers of units.
pub(crate) fn small_all(
    alloc: Global,
    units: &[Unit],
    numbers: &[usize],
) -> Result<List<u32>, NoMemory>
    requires order { AreInOrder units.now }
    requires numbers { All (λ n. n < length units.now) numbers.now }
    ensures { IfOk result (λ small. small ≡ numbers.now) }
{
    let mut all = Vec::new(alloc);
    for number in numbers {
        if all.push(small(units, *number)).is_err() {
            return Err(NoMemory);
        }
    }
    Ok(List::from_vec(all))
}

/// Rows of numbers of units.
pub(crate) fn small_rows(
    alloc: Global,
    units: &[Unit],
    rows: &[List<usize>],
) -> Result<List<List<u32>>, NoMemory>
    requires order { AreInOrder units.now }
    requires numbers { All (All (λ n. n < length units.now)) rows.now }
    ensures { IfOk result (λ small. small ≡ rows.now) }
{
    let mut all = Vec::new(alloc);
    for row in rows {
        let Ok(row) = small_all(alloc, units, row.as_slice()) else {
            return Err(NoMemory);
        };
        if all.push(row).is_err() {
            return Err(NoMemory);
        }
    }
    Ok(List::from_vec(all))
}
