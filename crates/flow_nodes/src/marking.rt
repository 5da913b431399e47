// Marks at cut points.
ghost use Rattle.std.specs.Prelude.{◌≡◌, false, true, set, replicate, IfOk};
ghost use Rattle.digraph.specs.Steps.{marks_after};
ghost use Rattle.flow_nodes.specs.Nodes.{cut_marks};

use edge_io::NoMemory;
use std::alloc::Global;

fn no_marks(alloc: Global, size: usize) -> Result<Vec<bool>, NoMemory>
    ensures { IfOk result (λ m. m.items ≡ replicate size false) }
{
    let mut marks = Vec::with_capacity(alloc, size)?;
    for _ in 0..size {
        let Ok(()) = marks.push(false) else {
            return Err(NoMemory);
        };
    }
    Ok(marks)
}

fn mark(marks: &mut Vec<bool>, point: usize)
    ensures { marks.new.items ≡ set marks.old.items point true }
{
    if point < marks.len() {
        marks[point] = true;
    }
}

fn mark_all(marks: &mut Vec<bool>, points: &[u32])
    ensures { marks.new.items ≡ marks_after marks.old.items points.now }
{
    for point in points {
        mark(marks, *point as usize);
    }
}

/// Marks at some points, of a unit with so many statements.
pub(crate) fn marks_of(alloc: Global, size: usize, cuts: &[u32]) -> Result<Vec<bool>, NoMemory>
    ensures { IfOk result (λ m. m.items ≡ cut_marks size cuts.now) }
{
    let mut marks = no_marks(alloc, size)?;
    mark_all(&mut marks, cuts);
    Ok(marks)
}
