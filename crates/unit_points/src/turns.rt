// Where the flow goes on behind each statement, and where block IFs lead.
ghost use Rattle.std.specs.Prelude.{◌≡◌, ◌<◌, length, drop, IfOk};
ghost use Rattle.fort_model.specs.Flow.{next_point};
ghost use Rattle.unit_points.specs.Turns.{HasScanned, AreFor, AreTurnsOf};

use crate::parts::Part;
use crate::scan::{Scan, scan_all};
use edge_io::NoMemory;
use fort_syntax::Unit;
use std::alloc::Global;

/// For each point of a unit: the point that the flow goes on to behind it, where its statement does not lead elsewhere; the
/// next ELSE IF, ELSE or END IF of its block IF; and the END IF of that.
#[derive(Drop)]
pub struct Turns {
    pub points: Vec<usize>,
    pub branches: Vec<usize>,
    pub ends: Vec<usize>,
}

fn point_behind(unit: &Unit, scan: &Scan, at: usize) -> usize
    requires at { at < length unit.now.lines }
    requires scanned { HasScanned unit.now.lines 0 scan.now }
    ensures { result ≡ next_point unit.now at }
{
    let lines = unit.lines.as_slice();
    let next = at + 1;
    if next >= lines.len() {
        return next;
    }
    match Part::of(&lines[next].stmt) {
        Part::Branches => scan.ends[next + 1],
        _ => next,
    }
}

fn points_behind(alloc: Global, unit: &Unit, scan: &Scan) -> Result<Vec<usize>, NoMemory>
    requires scanned { HasScanned unit.now.lines 0 scan.now }
    ensures { IfOk result (λ v. AreFor unit.now v.items (next_point unit.now)) }
{
    let count = unit.lines.as_slice().len();
    let mut points = Vec::with_capacity(alloc, count)?;
    for at in 0..count {
        let Ok(()) = points.push(point_behind(unit, scan, at)) else {
            return Err(NoMemory);
        };
    }
    Ok(points)
}

/// What is behind the first of some points.
fn shifted(alloc: Global, points: &[usize]) -> Result<Vec<usize>, NoMemory>
    ensures { IfOk result (λ v. v.items ≡ drop 1 points.now) }
{
    let mut rest = Vec::with_capacity(alloc, points.len())?;
    for at in 1..points.len() {
        let Ok(()) = rest.push(points[at]) else {
            return Err(NoMemory);
        };
    }
    Ok(rest)
}

/// Where the flow of a unit goes on, for each of its points; or want of memory.
pub fn turns_of(alloc: Global, unit: &Unit) -> Result<Turns, NoMemory>
    ensures { IfOk result (AreTurnsOf unit.now) }
{
    let scan = scan_all(alloc, unit.lines.as_slice())?;
    let points = points_behind(alloc, unit, &scan)?;
    let branches = shifted(alloc, scan.branches.as_slice())?;
    let ends = shifted(alloc, scan.ends.as_slice())?;
    Ok(Turns {
        points,
        branches,
        ends,
    })
}
