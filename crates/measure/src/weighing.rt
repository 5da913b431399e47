// The paths of a unit, one after another.
ghost use Rattle.std.specs.Prelude.{◌≡◌, ◌+◌, ◌≤◌, length, IfOk, IfSome};
ghost use Rattle.path_cut.specs.Cursor.{ways_left};
ghost use Rattle.path_cut.specs.Ways.{ways_of};
ghost use Rattle.size_tallies.specs.Totals.{with_ways};
ghost use Rattle.weight_calls.specs.Programs.{seen_program};
ghost use Rattle.weight_calls.specs.Subjects.{sight_of};
ghost use Rattle.weight_fronts.specs.Fronts.{IsFront};
ghost use Rattle.measure.specs.Sizes.{IsNext, sizes_of};

use crate::totals::Totals;
use edge_io::NoMemory;
use fort_model::Graph;
use path_cut::Paths;
use weight_fronts::{Front, follow};
use weight_stmt::Course;

/// Sizes with those of the next path, to which it goes on; None where there is none. The front is
/// that of the path before, and then of this one.
fn with_next(
    course: &Course,
    front: &mut Front,
    paths: &mut Paths,
    totals: &Totals,
) -> Result<Option<Totals>, NoMemory>
    requires few { totals.now.paths ≤ 4096 }
    requires front { IsFront (sight_of course.now.subject.now) paths.old.course.steps.items
        (length paths.old.course.steps.items) front.old }
    ensures next { IfOk result (IsNext (seen_program course.now.subject.now.pool.now course.now.subject.now.scene.now) course.now.subject.now.number
        course.now.subject.now.book.now.unit.now (sizes_of totals.now) (ways_left paths.old) (ways_left paths.new)) }
    ensures front { IfOk result (λ found. IfSome found (λ _. IsFront (sight_of course.now.subject.now) paths.new.course.steps.items
        (length paths.new.course.steps.items) front.new)) }
{
    paths.advance();
    let Some(view) = paths.view() else {
        return Ok(None);
    };
    let Ok(load) = follow(front, course, &view) else {
        return Err(NoMemory);
    };
    Ok(Some(totals.with(load)))
}

/// Sizes with those of the paths through the graph of the unit, which are told by their number.
pub(crate) fn with_paths(
    course: &Course,
    graph: &Graph,
    totals: Totals,
    count: u32,
) -> Result<Totals, NoMemory>
    requires count { count ≡ length (ways_of graph.now) }
    requires few { totals.paths + length (ways_of graph.now) ≤ 4096 }
    ensures { IfOk result (λ t. sizes_of t ≡ with_ways (seen_program course.now.subject.now.pool.now course.now.subject.now.scene.now)
        course.now.subject.now.number course.now.subject.now.book.now.unit.now (sizes_of totals) (ways_of graph.now)) }
{
    let Ok(mut paths) = Paths::new(course.subject.alloc, graph) else {
        return Err(NoMemory);
    };
    let mut front = Front::new(course.subject.alloc, course.subject.keys);
    let mut totals = totals;
    for _ in 0..count {
        let Ok(found) = with_next(course, &mut front, &mut paths, &totals) else {
            return Err(NoMemory);
        };
        let Some(more) = found else {
            return Ok(totals);
        };
        totals = more;
    }
    Ok(totals)
}
