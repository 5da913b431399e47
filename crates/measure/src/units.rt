// One unit after another.
ghost use Rattle.std.specs.Prelude.{◌≡◌, ◌+◌, ◌<◌, ◌≤◌, length, slice_get, Some, Err, IfOk};
ghost use Rattle.fort_syntax.specs.declared.refusal.Fault.{Fault};
ghost use Rattle.fort_syntax.specs.declared.refusal.Refusal.TheVariants.{Broken};
ghost use Rattle.fort_syntax.specs.declared.unit.Unit.{Unit as Routine};
ghost use Rattle.path_cut.specs.Ways.{ways_of};
ghost use Rattle.size_tallies.specs.Totals.{with_ways};
ghost use Rattle.weight_calls.specs.Programs.{seen_program};
ghost use Rattle.measure.specs.Sizes.{PassesBy, StaysWithin, sizes_of};

use crate::totals::Totals;
use crate::weighing::with_paths;
use crate::whole::Whole;
use call_sites::Book;
use edge_io::NoMemory;
use fort_model::Graph;
use fort_syntax::{Fault, Refusal, Rule, Unit};
use loop_tables::Loops;
use path_count::count_paths;
use unit_tables::LabelPoints;
use weight_calls::Subject;
use weight_stmt::Course;

/// A unit by its number, with the number of the paths through its graph.
#[derive(Clone, Copy, Debug)]
struct Counted {
    number: usize,
    paths: u32,
}

/// Ends a course.
fn leave(course: Course<'_>) {
    let Course {
        subject: _,
        loops: _,
        labels: _,
    } = course;
}

/// Ends what is known of a unit.
fn leave_subject(subject: Subject<'_>) {
    let Subject {
        alloc: _,
        keys: _,
        pool: _,
        scene: _,
        numbers: _,
        number: _,
        book: _,
    } = subject;
}

/// Sizes with those of a unit.
fn with_unit(
    whole: &Whole,
    unit: &Counted,
    book: &Book,
    graph: &Graph,
    totals: Totals,
) -> Result<Totals, NoMemory>
    requires count { unit.now.paths ≡ length (ways_of graph.now) }
    requires few { totals.paths + length (ways_of graph.now) ≤ 4096 }
    ensures { IfOk result (λ t. sizes_of t ≡ with_ways (seen_program whole.now.pool.now
        whole.now.scene.now) unit.now.number book.now.unit.now (sizes_of totals)
        (ways_of graph.now)) }
{
    let lines = book.unit.lines.as_slice();
    let Ok(labels) = LabelPoints::new(whole.alloc, whole.keys, lines) else {
        return Err(NoMemory);
    };
    let Ok(loops) = Loops::new(whole.alloc, book.unit, &labels) else {
        return Err(NoMemory);
    };
    let subject = Subject {
        alloc: whole.alloc,
        keys: whole.keys,
        pool: whole.pool,
        scene: whole.scene,
        numbers: whole.numbers,
        number: unit.number,
        book,
    };
    let course = Course {
        subject: &subject,
        loops: &loops,
        labels: &labels,
    };
    let behind = with_paths(&course, graph, totals, unit.paths);
    leave(course);
    leave_subject(subject);
    behind
}

/// The fault of a unit by a rule on sizes.
fn fault_of(rule: Rule, unit: &Unit) -> Fault
    ensures { result ≡ record { rule = rule; card = unit.now.head } }
{
    Fault {
        rule,
        card: unit.head,
    }
}

/// Sizes behind the unit of a number, by its graph, where those before it are within the limits; or
/// its fault, if it passes one.
pub(crate) fn measure_unit(
    whole: &Whole,
    number: usize,
    graph: &Graph,
    totals: Totals,
) -> Result<Totals, Refusal>
    requires within { number < length whole.now.scene.now.books.now.units.now }
    requires few { totals.paths ≤ 4096 }
    ensures within { IfOk result (λ t. (u : Routine)
        → slice_get whole.now.scene.now.books.now.units.now number ≡ Some u
        → StaysWithin (seen_program whole.now.pool.now whole.now.scene.now) number u graph.now
        (sizes_of totals) (sizes_of t)) }
    ensures broken { (f : Fault) → result ≡ Err (Broken f) → (u : Routine)
        → slice_get whole.now.scene.now.books.now.units.now number ≡ Some u
        → PassesBy (seen_program whole.now.pool.now whole.now.scene.now) number u graph.now
        (sizes_of totals) f }
{
    let book = whole.scene.books.book(number);
    let Ok(count) = count_paths(whole.alloc, graph, 4096 - totals.paths) else {
        return Err(Refusal::NoMemory);
    };
    let Some(paths) = count else {
        return Err(Refusal::Broken(fault_of(Rule::ManyPaths, book.unit)));
    };
    let Ok(behind) = with_unit(whole, &Counted { number, paths }, book, graph, totals) else {
        return Err(Refusal::NoMemory);
    };
    if behind.conditions > 100_000 {
        return Err(Refusal::Broken(fault_of(Rule::ManyConditions, book.unit)));
    }
    if behind.weight > 2_000_000 {
        return Err(Refusal::Broken(fault_of(Rule::Heavy, book.unit)));
    }
    Ok(behind)
}
