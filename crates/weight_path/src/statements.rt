// The statements of a path.
ghost use Rattle.std.specs.Prelude.{◌≡◌, option_copied, slice_get, OnOk};
ghost use Rattle.way_laws.specs.PathsOf.{turns};
ghost use Rattle.weight_calls.specs.Subjects.{sight_of};
ghost use Rattle.weight_terms.specs.Held.{held, marked};
ghost use Rattle.weight_tallies.specs.Tallies as tally;

use crate::choices::turns;
use edge_io::NoMemory;
use fort_syntax::{Line, Unit};
use path_cut::Step;
use weight_caps::Load;
use weight_stmt::{Course, Work, performed};
use weight_terms::NameWeights;

/// The statement at a point, where there is one.
fn line_at(unit: &Unit, point: usize) -> Option<&Line>
    ensures { option_copied result ≡ slice_get unit.now.lines point }
{
    unit.lines.as_slice().get(point)
}

/// The statement at a point, if there is one, is performed under the choices of the steps behind it; what
/// names weighed at the marks stays.
pub fn perform_at(
    course: &Course,
    names: &mut NameWeights,
    load: &mut Load,
    point: usize,
    behind: &[Step],
) -> Result<(), NoMemory>
    ensures load { OnOk result (load.new ≡ (tally.perform_line (sight_of course.now.subject.now)
        (slice_get course.now.subject.now.book.now.unit.now.lines point) point (held names.old)
        (turns behind.now) load.old).load) }
    ensures names { OnOk result (held names.new ≡ (tally.perform_line
        (sight_of course.now.subject.now) (slice_get course.now.subject.now.book.now.unit.now.lines
        point) point (held names.old) (turns behind.now) load.old).value) }
    ensures marks { OnOk result (marked names.new ≡ marked names.old) }
{
    let Some(line) = line_at(course.subject.book.unit, point) else {
        return Ok(());
    };
    let Ok(choices) = turns(course.subject.alloc, behind) else {
        return Err(NoMemory);
    };
    let work = Work {
        at: point,
        stmt: &line.stmt,
        choices: choices.as_slice(),
    };
    let Ok(()) = performed(course, names, load, &work) else {
        return Err(NoMemory);
    };
    Ok(())
}
