// DOs are tested in turn.
ghost use Rattle.std.specs.Prelude.{◌≡◌, ◌≤◌, ℕ, length, OnOk};
ghost use Rattle.loop_tables.specs.Loops.{loops_told};
ghost use Rattle.weight_calls.specs.Subjects.{sight_of};
ghost use Rattle.weight_terms.specs.Held.{held, marked};
ghost use Rattle.weight_tallies.specs.Tallies as tally;
ghost use Rattle.weight_stmt.specs.Turns.{loop_of, turned, weight_behind};

use crate::course::Course;
use crate::parameters::{Found, left_with, loop_at, loop_tested, next};
use edge_io::NoMemory;
use fort_syntax::Dialect;
use loop_tables::points_before;
use weight_calls::Subject;
use weight_caps::Load;
use weight_terms::NameWeights;

/// What the variable of a DO weighs behind its test, by a choice and the weight of the sum.
fn weight_behind(dialect: Dialect, choice: usize, sum: u32) -> u32
    ensures { result ≡ weight_behind dialect choice sum }
{
    if choice == 1 {
        return next(sum);
    }
    left_with(dialect, sum)
}

/// A DO is tested under a choice: by 1 it goes round again, by another it is left.
fn turn(
    subject: &Subject,
    names: &mut NameWeights,
    load: &mut Load,
    found: &Found,
    choice: usize,
) -> Result<(), NoMemory>
    ensures load { OnOk result ((at : ℕ) → load.new ≡ (turned (sight_of subject.now)
        (held names.old) (loop_of at found.now) choice load.old).load) }
    ensures names { OnOk result ((at : ℕ) → held names.new ≡ (turned (sight_of subject.now)
        (held names.old) (loop_of at found.now) choice load.old).value) }
    ensures marks { OnOk result (marked names.new ≡ marked names.old) }
{
    let sum = loop_tested(subject, names, load, found);
    let weight = weight_behind(subject.scene.dialect, choice, sum);
    let Ok(()) = names.set(&found.variable, weight) else {
        return Err(NoMemory);
    };
    Ok(())
}

/// The DOs at some points are tested in turn, under choices: by the choice 1 one goes round again, by
/// another it is left.
pub(crate) fn tests(
    subject: &Subject,
    names: &mut NameWeights,
    load: &mut Load,
    points: &[usize],
    choices: &[usize],
) -> Result<(), NoMemory>
    ensures load { OnOk result (load.new ≡ (tally.tests (sight_of subject.now) (held names.old)
        (loops_told subject.now.book.now.unit.now.lines points.now) choices.now load.old).load) }
    ensures names { OnOk result (held names.new ≡ (tally.tests (sight_of subject.now) (held names.old)
        (loops_told subject.now.book.now.unit.now.lines points.now) choices.now load.old).value) }
    ensures marks { OnOk result (marked names.new ≡ marked names.old) }
{
    let mut used = 0;
    for at in points {
        let Some(found) = loop_at(subject.book.unit, *at) else {
            continue;
        };
        if used >= choices.len() {
            return Ok(());
        }
        let choice = choices[used];
        let Ok(()) = turn(subject, names, load, &found, choice) else {
            return Err(NoMemory);
        };
        if choice == 1 {
            return Ok(());
        }
        used += 1;
    }
    Ok(())
}

/// The tests behind the statement at a point.
pub(crate) fn behind(
    course: &Course,
    names: &mut NameWeights,
    load: &mut Load,
    at: usize,
    choices: &[usize],
) -> Result<(), NoMemory>
    requires { at ≤ length course.now.subject.now.book.now.unit.now.lines }
    ensures load { OnOk result (load.new ≡ (tally.behind (sight_of course.now.subject.now) at
        (held names.old) choices.now load.old).load) }
    ensures names { OnOk result (held names.new ≡ (tally.behind (sight_of course.now.subject.now) at
        (held names.old) choices.now load.old).value) }
    ensures marks { OnOk result (marked names.new ≡ marked names.old) }
{
    let points = course.loops.at(course.subject.book.unit, at);
    let Ok(()) = tests(course.subject, names, load, points, choices) else {
        return Err(NoMemory);
    };
    Ok(())
}

/// The tests behind the last statement of a DO at a point that is not entered: those of the DOs
/// around it.
pub(crate) fn passed_over(
    course: &Course,
    names: &mut NameWeights,
    load: &mut Load,
    ends: (usize, usize),
    choices: &[usize],
) -> Result<(), NoMemory>
    requires { ends.0 ≤ length course.now.subject.now.book.now.unit.now.lines }
    ensures load { OnOk result (load.new ≡ (tally.passed_over (sight_of course.now.subject.now)
        ends.0 ends.1 (held names.old) choices.now load.old).load) }
    ensures names { OnOk result (held names.new ≡ (tally.passed_over (sight_of course.now.subject.now) ends.0 ends.1 (held names.old) choices.now
        load.old).value) }
    ensures marks { OnOk result (marked names.new ≡ marked names.old) }
{
    let (last, at) = ends;
    let all = course.loops.at(course.subject.book.unit, last);
    let Ok(points) = points_before(course.subject.alloc, all, at) else {
        return Err(NoMemory);
    };
    let Ok(()) = tests(course.subject, names, load, points.as_slice(), choices) else {
        return Err(NoMemory);
    };
    Ok(())
}
