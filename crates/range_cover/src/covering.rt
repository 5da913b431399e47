// What covers each point.
ghost use Rattle.std.specs.Prelude.{IfOk};
ghost use Rattle.range_cover.specs.Covers.{AreEnds, AreCovers};

use crate::beginning::firsts;
use crate::ending::lasts;
use edge_io::NoMemory;
use std::alloc::Global;

/// What covers each point of so many.
#[derive(Drop)]
pub struct Covers {
    /// For each point the first point of the range that covers it and begins last; 0 where none covers it.
    pub firsts: Vec<usize>,
    /// For each point, and the number of points, the last point of the range that covers it and ends first; the number of
    /// points where none covers it.
    pub lasts: Vec<usize>,
}

/// What covers the points. For each point `far` has the last point of the range that begins behind it; one that is no greater
/// than the point where none begins there. The ranges may cross. It takes time and memory for each point alone.
pub fn cover_all(alloc: Global, far: &[usize]) -> Result<Covers, NoMemory>
    requires { AreEnds far.now }
    ensures { IfOk result (AreCovers far.now) }
{
    let firsts = firsts(alloc, far)?;
    let lasts = lasts(alloc, far)?;
    Ok(Covers { firsts, lasts })
}
