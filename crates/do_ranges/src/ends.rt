// The ends of ranges.
ghost use Rattle.std.specs.Prelude.{◌≡◌, ◌<◌, length, IfOk};
ghost use Rattle.fort_model.specs.Flow.{end_if};
ghost use Rattle.unit_points.specs.Labels.{AreLabelsOf};
ghost use Rattle.unit_points.specs.Turns.{AreTurnsOf};
ghost use Rattle.do_ranges.specs.Ends.{do_end, block_end, do_ends, block_ends};

use edge_io::NoMemory;
use fort_syntax::{Stmt, Unit};
use std::alloc::Global;
use unit_points::{Labels, Turns};

/// The last point of the range of a DO at a point, 0 where there is none.
fn do_end(unit: &Unit, labels: &Labels, at: usize, stmt: &Stmt) -> usize
    requires labels { AreLabelsOf unit.now.lines labels.now }
    ensures { result ≡ do_end unit.now at stmt.now }
{
    let Stmt::Do(label, ..) = stmt else {
        return 0;
    };
    let last = labels.point(*label);
    if at < last && last < unit.lines.as_slice().len() {
        last
    } else {
        0
    }
}

/// The last point of the block behind a point, 0 where none begins there.
fn block_end(unit: &Unit, turns: &Turns, at: usize, stmt: &Stmt) -> usize
    requires at { at < length unit.now.lines }
    requires turns { AreTurnsOf unit.now turns.now }
    ensures { result ≡ block_end unit.now at stmt.now }
{
    match stmt {
        Stmt::BlockIf(_) => turns.branches[at].saturating_sub(1),
        Stmt::ElseIf(_) => turns.branches[at].saturating_sub(1),
        Stmt::Else => turns.branches[at].saturating_sub(1),
        _ => 0,
    }
}

/// The point of the END IF of the block IF at a point.
pub(crate) fn end_at(unit: &Unit, turns: &Turns, at: usize) -> usize
    requires at { at < length unit.now.lines }
    requires turns { AreTurnsOf unit.now turns.now }
    ensures { result ≡ end_if unit.now at }
{
    turns.ends[at]
}

/// The ends of the ranges of DOs, for each point the one behind it.
pub(crate) fn do_ends(alloc: Global, unit: &Unit, labels: &Labels) -> Result<Vec<usize>, NoMemory>
    requires labels { AreLabelsOf unit.now.lines labels.now }
    ensures { IfOk result (λ v. v.items ≡ do_ends unit.now) }
{
    let lines = unit.lines.as_slice();
    let mut ends = Vec::with_capacity(alloc, lines.len())?;
    for at in 0..lines.len() {
        let Ok(()) = ends.push(do_end(unit, labels, at, &lines[at].stmt)) else {
            return Err(NoMemory);
        };
    }
    Ok(ends)
}

/// The ends of blocks, for each point that of the one behind it.
pub(crate) fn block_ends(alloc: Global, unit: &Unit, turns: &Turns) -> Result<Vec<usize>, NoMemory>
    requires turns { AreTurnsOf unit.now turns.now }
    ensures { IfOk result (λ v. v.items ≡ block_ends unit.now) }
{
    let lines = unit.lines.as_slice();
    let mut ends = Vec::with_capacity(alloc, lines.len())?;
    for at in 0..lines.len() {
        let Ok(()) = ends.push(block_end(unit, turns, at, &lines[at].stmt)) else {
            return Err(NoMemory);
        };
    }
    Ok(ends)
}
