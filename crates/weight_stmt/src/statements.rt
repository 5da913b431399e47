// Statements.
ghost use Rattle.std.specs.Prelude.{◌≡◌, ◌≤◌, ◌==◌, suc, length, OnOk};
ghost use Rattle.weight_calls.specs.Subjects.{sight_of};
ghost use Rattle.weight_terms.specs.Held.{held, marked};
ghost use Rattle.weight_tallies.specs.Tallies as tally;
ghost use Rattle.fort_syntax.specs.Names.{is_function};
ghost use Rattle.weight_stmt.specs.Parts.{assigned_part, call_part, computed_part, decided_part, do_part};

use crate::choices::first_of;
use crate::course::Course;
use crate::parameters::{next, pair, parameter, step_weight};
use crate::turns::{behind, passed_over};
use edge_io::NoMemory;
use fort_syntax::{Dialect, Expr, Name, Param, Stmt};
use weight_calls::{Subject, call};
use weight_caps::{Load, plus, sum_of};
use weight_expr::{operands, read, test_subscripts, value, values};
use weight_terms::NameWeights;

/// What is assigned to the left side: a name, or an element of an array.
fn assign(
    subject: &Subject,
    names: &mut NameWeights,
    load: &mut Load,
    left: &Expr,
    weight: u32,
) -> Result<(), NoMemory>
    ensures load { OnOk result (load.new ≡ (tally.assign (sight_of subject.now)
        (held names.old) left.now weight load.old).load) }
    ensures names { OnOk result (held names.new ≡ (tally.assign (sight_of subject.now)
        (held names.old) left.now weight load.old).value) }
    ensures marks { OnOk result (marked names.new ≡ marked names.old) }
{
    match left {
        Expr::Var(name) => {
            let Ok(()) = names.set(name, next(weight)) else {
                return Err(NoMemory);
            };
            Ok(())
        }
        Expr::Apply(name, args) => {
            let Ok(subscripts) = values(subject, names, load, args.as_slice()) else {
                return Err(NoMemory);
            };
            test_subscripts(load, subscripts.as_slice(), subject.book.dims(name).len());
            let old = plus(names.of(name), sum_of(subscripts.as_slice()));
            let Ok(()) = names.set(name, pair(old, weight)) else {
                return Err(NoMemory);
            };
            Ok(())
        }
        _ => Ok(()),
    }
}

/// A condition is decided.
fn judge(subject: &Subject, names: &NameWeights, load: &mut Load, e: &Expr) -> Result<(), NoMemory>
    ensures { OnOk result (load.new ≡ (tally.judged (sight_of subject.now)
        (held names.now) e.now load.old).load) }
{
    let Ok(weight) = value(subject, names, load, e) else {
        return Err(NoMemory);
    };
    load.decide(weight);
    Ok(())
}

/// A DO that begins at a point: the point of its last statement, its variable, and the weights of
/// its first value, its last value, and its step.
#[derive(Clone, Copy, Debug)]
struct Begun {
    at: usize,
    ends: usize,
    variable: Name,
    first: u32,
    last: u32,
    step: u32,
}

/// A DO that begins is entered by the choice 1, and else it is passed over.
fn enter(
    course: &Course,
    names: &mut NameWeights,
    load: &mut Load,
    begun: &Begun,
    choices: &[usize],
) -> Result<(), NoMemory>
    requires { begun.now.ends ≤ length course.now.subject.now.book.now.unit.now.lines }
    ensures load { OnOk result (load.new ≡ (tally.entered (sight_of course.now.subject.now) begun.now.ends begun.now.at (held names.old)
        begun.now.first begun.now.last choices.now load.old).load) }
    ensures names { OnOk result (held names.new ≡ (tally.entered (sight_of course.now.subject.now) begun.now.ends begun.now.at (held names.old)
        begun.now.first begun.now.last choices.now load.old).value) }
    ensures marks { OnOk result (marked names.new ≡ marked names.old) }
{
    let Some(taken) = first_of(choices) else {
        return Ok(());
    };
    load.decide(plus(begun.first, begun.last));
    if taken.choice == 1 {
        return Ok(());
    }
    let ends = (begun.ends, begun.at);
    let Ok(()) = passed_over(course, names, load, ends, taken.rest) else {
        return Err(NoMemory);
    };
    Ok(())
}

/// A DO begins; under 77 it may not be entered.
fn begin(
    course: &Course,
    names: &mut NameWeights,
    load: &mut Load,
    begun: &Begun,
    choices: &[usize],
) -> Result<(), NoMemory>
    requires { begun.now.ends ≤ length course.now.subject.now.book.now.unit.now.lines }
    ensures load { OnOk result (load.new ≡ (tally.begin (sight_of course.now.subject.now) course.now.subject.now.scene.now.dialect begun.now.ends
        begun.now.at (held names.old) begun.now.variable begun.now.first begun.now.last begun.now.step choices.now load.old).load) }
    ensures names { OnOk result (held names.new ≡ (tally.begin (sight_of course.now.subject.now) course.now.subject.now.scene.now.dialect
        begun.now.ends begun.now.at (held names.old) begun.now.variable begun.now.first begun.now.last begun.now.step choices.now load.old).value) }
    ensures marks { OnOk result (marked names.new ≡ marked names.old) }
{
    if let Dialect::Common = course.subject.scene.dialect {
        load.test(plus(plus(begun.first, begun.last), begun.step));
        let Ok(()) = names.set(&begun.variable, next(begun.first)) else {
            return Err(NoMemory);
        };
        return Ok(());
    }
    load.test(begun.step);
    let difference = pair(begun.last, begun.first);
    load.test(difference);
    load.test(pair(difference, begun.step));
    let Ok(()) = names.set(&begun.variable, next(begun.first)) else {
        return Err(NoMemory);
    };
    let Ok(()) = enter(course, names, load, begun, choices) else {
        return Err(NoMemory);
    };
    Ok(())
}

/// A computed GO TO at a point with so many labels, and the weight of what selects one.
#[derive(Clone, Copy, Debug)]
struct Selected {
    at: usize,
    labels: usize,
    weight: u32,
}

/// Whether a choice goes on behind a computed GO TO with so many labels.
fn goes_behind(choice: usize, labels: usize) -> bool
    ensures { result ≡ (choice == suc labels) }
{
    choice > 0 && choice - 1 == labels
}

/// A label is selected; under 77 the flow may go on behind the statement.
fn select(
    course: &Course,
    names: &mut NameWeights,
    load: &mut Load,
    selected: &Selected,
    choices: &[usize],
) -> Result<(), NoMemory>
    requires { selected.now.at ≤ length course.now.subject.now.book.now.unit.now.lines }
    ensures load { OnOk result (load.new ≡ (tally.selected (sight_of course.now.subject.now) selected.now.at (held names.old) selected.now.labels
        selected.now.weight choices.now load.old).load) }
    ensures names { OnOk result (held names.new ≡ (tally.selected (sight_of course.now.subject.now) selected.now.at (held names.old)
        selected.now.labels selected.now.weight choices.now load.old).value) }
    ensures marks { OnOk result (marked names.new ≡ marked names.old) }
{
    let Some(taken) = first_of(choices) else {
        return Ok(());
    };
    load.decide(selected.weight);
    if let Dialect::Common = course.subject.scene.dialect {
        return Ok(());
    }
    if goes_behind(taken.choice, selected.labels) {
        let Ok(()) = behind(course, names, load, selected.at, taken.rest) else {
            return Err(NoMemory);
        };
        return Ok(());
    }
    Ok(())
}

/// A point, and the choices under which the statement there is performed.
#[derive(Clone, Copy)]
struct Spot<'a> {
    at: usize,
    choices: &'a [usize],
}

/// The sides of an assignment.
#[derive(Clone, Copy)]
struct Sides<'a> {
    left: &'a Expr,
    right: &'a Expr,
}

/// An assignment at the point of some spot.
fn assigned(
    course: &Course,
    names: &mut NameWeights,
    load: &mut Load,
    spot: &Spot,
    sides: &Sides,
) -> Result<(), NoMemory>
    requires { spot.now.at ≤ length course.now.subject.now.book.now.unit.now.lines }
    ensures load { OnOk result (load.new ≡ (assigned_part (sight_of course.now.subject.now) spot.now.at (held names.old) sides.now.left.now
        sides.now.right.now spot.now.choices.now load.old).load) }
    ensures names { OnOk result (held names.new ≡ (assigned_part (sight_of course.now.subject.now) spot.now.at (held names.old) sides.now.left.now
        sides.now.right.now spot.now.choices.now load.old).value) }
    ensures marks { OnOk result (marked names.new ≡ marked names.old) }
{
    let Ok(weight) = value(course.subject, names, load, sides.right) else {
        return Err(NoMemory);
    };
    let Ok(()) = assign(course.subject, names, load, sides.left, weight) else {
        return Err(NoMemory);
    };
    let Ok(()) = behind(course, names, load, spot.at, spot.choices) else {
        return Err(NoMemory);
    };
    Ok(())
}

/// A computed GO TO with so many labels.
fn computed(
    course: &Course,
    names: &mut NameWeights,
    load: &mut Load,
    spot: &Spot,
    goto: (usize, Name),
) -> Result<(), NoMemory>
    requires { spot.now.at ≤ length course.now.subject.now.book.now.unit.now.lines }
    ensures load { OnOk result (load.new ≡ (computed_part (sight_of course.now.subject.now) spot.now.at (held names.old) goto.0 goto.1
        spot.now.choices.now load.old).load) }
    ensures names { OnOk result (held names.new ≡ (computed_part (sight_of course.now.subject.now) spot.now.at (held names.old) goto.0 goto.1
        spot.now.choices.now load.old).value) }
    ensures marks { OnOk result (marked names.new ≡ marked names.old) }
{
    let (labels, name) = goto;
    let weight = read(load, names.of(&name));
    if let Dialect::Common = course.subject.scene.dialect {
        load.test(weight);
    }
    let selected = Selected {
        at: spot.at,
        labels,
        weight,
    };
    let Ok(()) = select(course, names, load, &selected, spot.choices) else {
        return Err(NoMemory);
    };
    Ok(())
}

/// A DO with its parameters.
#[derive(Clone, Copy, Debug)]
struct Head {
    label: u32,
    variable: Name,
    first: Param,
    last: Param,
    step: Option<Param>,
}

/// A DO.
fn entered(
    course: &Course,
    names: &mut NameWeights,
    load: &mut Load,
    spot: &Spot,
    head: &Head,
) -> Result<(), NoMemory>
    requires { spot.now.at ≤ length course.now.subject.now.book.now.unit.now.lines }
    ensures load { OnOk result (load.new ≡ (do_part (sight_of course.now.subject.now) spot.now.at (held names.old) head.now.label head.now.variable
        head.now.first head.now.last head.now.step spot.now.choices.now load.old).load) }
    ensures names { OnOk result (held names.new ≡ (do_part (sight_of course.now.subject.now) spot.now.at (held names.old) head.now.label
        head.now.variable head.now.first head.now.last head.now.step spot.now.choices.now load.old).value) }
    ensures marks { OnOk result (marked names.new ≡ marked names.old) }
{
    let subject = course.subject;
    let first = parameter(subject, names, load, head.first);
    let last = parameter(subject, names, load, head.last);
    let step = step_weight(subject, names, load, head.step);
    let lines = subject.book.unit.lines.as_slice();
    let begun = Begun {
        at: spot.at,
        ends: course.labels.point(lines, head.label),
        variable: head.variable,
        first,
        last,
        step,
    };
    let Ok(()) = begin(course, names, load, &begun, spot.choices) else {
        return Err(NoMemory);
    };
    Ok(())
}

/// The called name and the actuals of a CALL.
#[derive(Clone, Copy)]
struct Callee<'a> {
    name: &'a Name,
    args: &'a [Expr],
}

/// A CALL.
fn called(
    course: &Course,
    names: &mut NameWeights,
    load: &mut Load,
    spot: &Spot,
    callee: &Callee,
) -> Result<(), NoMemory>
    requires { spot.now.at ≤ length course.now.subject.now.book.now.unit.now.lines }
    ensures load { OnOk result (load.new ≡ (call_part (sight_of course.now.subject.now) spot.now.at (held names.old) callee.now.name.now
        callee.now.args.now spot.now.choices.now load.old).load) }
    ensures names { OnOk result (held names.new ≡ (call_part (sight_of course.now.subject.now) spot.now.at (held names.old) callee.now.name.now
        callee.now.args.now spot.now.choices.now load.old).value) }
    ensures marks { OnOk result (marked names.new ≡ marked names.old) }
{
    let subject = course.subject;
    let Ok(actuals) = operands(subject, names, load, callee.args) else {
        return Err(NoMemory);
    };
    let number = subject
        .numbers
        .subroutine(subject.scene.books.units, callee.name);
    let Ok(()) = call(subject, number, names, actuals.as_slice(), load) else {
        return Err(NoMemory);
    };
    let Ok(()) = behind(course, names, load, spot.at, spot.choices) else {
        return Err(NoMemory);
    };
    Ok(())
}

/// A RETURN: that of a FUNCTION needs its value.
fn returned(subject: &Subject, names: &NameWeights, load: &mut Load)
    ensures { load.new ≡ (tally.result (sight_of subject.now) (held names.now)
        (is_function subject.now.book.now.unit.now) load.old).load }
{
    if subject.book.unit.sort.is_some() {
        load.test(names.of(&subject.book.unit.name));
    }
}

/// A logical IF: where it is performed, and its condition.
#[derive(Clone, Copy)]
struct Decision<'a> {
    spot: &'a Spot<'a>,
    condition: &'a Expr,
}

/// A logical IF, whose statement is performed by the choice 1.
#[cycle(statements)]
fn decided(
    course: &Course,
    names: &mut NameWeights,
    load: &mut Load,
    decision: &Decision,
    carried: &Stmt,
) -> Result<(), NoMemory>
    requires { decision.now.spot.now.at ≤ length course.now.subject.now.book.now.unit.now.lines }
    ensures load { OnOk result (load.new ≡ (decided_part (sight_of course.now.subject.now) decision.now.spot.now.at (held names.old)
        decision.now.condition.now carried.now decision.now.spot.now.choices.now load.old).load) }
    ensures names { OnOk result (held names.new ≡ (decided_part (sight_of course.now.subject.now) decision.now.spot.now.at (held names.old)
        decision.now.condition.now carried.now decision.now.spot.now.choices.now load.old).value) }
    ensures marks { OnOk result (marked names.new ≡ marked names.old) }
{
    let at = decision.spot.at;
    let Some(taken) = first_of(decision.spot.choices) else {
        return Ok(());
    };
    let Ok(()) = judge(course.subject, names, load, decision.condition) else {
        return Err(NoMemory);
    };
    let choices = taken.rest;
    if taken.choice == 1 {
        let Ok(()) = perform(course, names, load, &Spot { at, choices }, carried) else {
            return Err(NoMemory);
        };
        return Ok(());
    }
    let Ok(()) = behind(course, names, load, at, choices) else {
        return Err(NoMemory);
    };
    Ok(())
}

/// A statement.
#[cycle(statements)]
fn perform(
    course: &Course,
    names: &mut NameWeights,
    load: &mut Load,
    spot: &Spot,
    stmt: &Stmt,
) -> Result<(), NoMemory>
    requires { spot.now.at ≤ length course.now.subject.now.book.now.unit.now.lines }
    ensures load { OnOk result (load.new ≡ (tally.performed (sight_of course.now.subject.now) spot.now.at (held names.old) stmt.now
        spot.now.choices.now load.old).load) }
    ensures names { OnOk result (held names.new ≡ (tally.performed (sight_of course.now.subject.now) spot.now.at (held names.old) stmt.now
        spot.now.choices.now load.old).value) }
    ensures marks { OnOk result (marked names.new ≡ marked names.old) }
{
    match stmt {
        Stmt::Assign(left, right) => assigned(course, names, load, spot, &Sides { left, right }),
        Stmt::Computed(labels, name) => {
            computed(course, names, load, spot, (labels.as_slice().len(), *name))
        }
        Stmt::ArithIf(e, ..) | Stmt::BlockIf(e) | Stmt::ElseIf(e) => {
            judge(course.subject, names, load, e)
        }
        Stmt::LogicalIf(condition, carried) => {
            let decision = Decision {
                spot: &*spot,
                condition,
            };
            decided(course, names, load, &decision, carried.get())
        }
        Stmt::Do(label, variable, first, last, step) => {
            let head = Head {
                label: *label,
                variable: *variable,
                first: *first,
                last: *last,
                step: *step,
            };
            entered(course, names, load, spot, &head)
        }
        Stmt::Call(name, args) => {
            let args = args.as_slice();
            called(course, names, load, spot, &Callee { name, args })
        }
        Stmt::Return => {
            returned(course.subject, names, load);
            Ok(())
        }
        Stmt::Continue | Stmt::Else | Stmt::EndIf => {
            behind(course, names, load, spot.at, spot.choices)
        }
        _ => Ok(()),
    }
}

/// A statement at a point, with the choices under which it is performed.
#[derive(Clone, Copy)]
pub struct Work<'a> {
    pub at: usize,
    pub stmt: &'a Stmt,
    pub choices: &'a [usize],
}

/// A statement is performed.
pub fn performed(
    course: &Course,
    names: &mut NameWeights,
    load: &mut Load,
    work: &Work,
) -> Result<(), NoMemory>
    requires { work.now.at ≤ length course.now.subject.now.book.now.unit.now.lines }
    ensures load { OnOk result (load.new ≡ (tally.performed (sight_of course.now.subject.now) work.now.at (held names.old) work.now.stmt.now
        work.now.choices.now load.old).load) }
    ensures names { OnOk result (held names.new ≡ (tally.performed (sight_of course.now.subject.now) work.now.at (held names.old) work.now.stmt.now
        work.now.choices.now load.old).value) }
    ensures marks { OnOk result (marked names.new ≡ marked names.old) }
{
    let spot = Spot {
        at: work.at,
        choices: work.choices,
    };
    let Ok(()) = perform(course, names, load, &spot, work.stmt) else {
        return Err(NoMemory);
    };
    Ok(())
}
