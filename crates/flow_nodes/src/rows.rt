// The rows of the graph.
ghost use Rattle.std.specs.Prelude.{◌≡◌, ◌<◌, ◌++◌, [], ◌∷◌, cond, true, map, length, get_or, IfOk, OnOk};
ghost use Rattle.flow_nodes.specs.Nodes.{node, one_node, fork_nodes, flow_nodes};

use crate::marking::marks_of;
use edge_io::{List, NoMemory};
use fort_model::{Fork, Target};
use std::alloc::Global;

/// The node of a point: of a cut point and of the end it is that of the end.
fn landing(size: usize, marks: &[bool], point: usize) -> usize
    ensures { result ≡ cond (get_or marks.now point true) size point }
{
    if point < marks.len() && !marks[point] {
        point
    } else {
        size
    }
}

fn node_of(size: usize, marks: &[bool], target: Target) -> usize
    requires { size < 1073741824 }
    ensures { result ≡ node size marks.now target }
{
    match target {
        Target::Point(point) => landing(size, marks, point as usize),
        Target::Fork(fork) => size + 1 + fork as usize,
    }
}

fn row_of(
    alloc: Global,
    size: usize,
    marks: &[bool],
    targets: &[Target],
) -> Result<List<usize>, NoMemory>
    requires { size < 1073741824 }
    ensures { IfOk result (λ row. row ≡ map (node size marks.now) targets.now) }
{
    let mut row = Vec::with_capacity(alloc, targets.len())?;
    for target in targets {
        let Ok(()) = row.push(node_of(size, marks, *target)) else {
            return Err(NoMemory);
        };
    }
    Ok(List::from_vec(row))
}

fn row_of_one(alloc: Global, node: usize) -> Result<List<usize>, NoMemory>
    ensures { IfOk result (λ row. row ≡ node ∷ []) }
{
    let mut row = Vec::with_capacity(alloc, 1)?;
    let Ok(()) = row.push(node) else {
        return Err(NoMemory);
    };
    Ok(List::from_vec(row))
}

fn start_rows(
    alloc: Global,
    size: usize,
    marks: &[bool],
    starts: &[Target],
) -> Result<Vec<List<usize>>, NoMemory>
    requires { size < 1073741824 }
    ensures { IfOk result (λ rows. rows.items ≡ map (one_node size marks.now) starts.now) }
{
    let mut rows = Vec::new(alloc);
    for start in starts {
        let Ok(row) = row_of_one(alloc, node_of(size, marks, *start)) else {
            return Err(NoMemory);
        };
        let Ok(()) = rows.push(row) else {
            return Err(NoMemory);
        };
    }
    Ok(rows)
}

fn add_forks(
    alloc: Global,
    size: usize,
    marks: &[bool],
    forks: &[Fork],
    rows: &mut Vec<List<usize>>,
) -> Result<(), NoMemory>
    requires { size < 1073741824 }
    ensures { OnOk result (rows.new.items ≡ rows.old.items ++ map (fork_nodes size marks.now) forks.now) }
{
    for fork in forks {
        let Ok(row) = row_of(alloc, size, marks, fork.targets.as_slice()) else {
            return Err(NoMemory);
        };
        let Ok(()) = rows.push(row) else {
            return Err(NoMemory);
        };
    }
    Ok(())
}

/// The nodes that each node leads to.
pub(crate) fn rows_of(
    alloc: Global,
    starts: &[Target],
    forks: &[Fork],
    cuts: &[u32],
) -> Result<Vec<List<usize>>, NoMemory>
    requires { length starts.now < 1073741824 }
    ensures { IfOk result (λ rows. rows.items ≡ flow_nodes cuts.now starts.now forks.now) }
{
    let size = starts.len();
    let marks = marks_of(alloc, size, cuts)?;
    let mut rows = start_rows(alloc, size, marks.as_slice(), starts)?;
    let Ok(()) = rows.push(List::from_vec(Vec::new(alloc))) else {
        return Err(NoMemory);
    };
    let Ok(()) = add_forks(alloc, size, marks.as_slice(), forks, &mut rows) else {
        return Err(NoMemory);
    };
    Ok(rows)
}
