// Parameters of DOs.
ghost use Rattle.std.specs.Prelude.{◌≡◌, ℕ, option_copied, slice_get};
ghost use Rattle.loop_tables.specs.Loops.{with_line};
ghost use Rattle.weight_calls.specs.Subjects.{sight_of};
ghost use Rattle.weight_terms.specs.Held.{held};
ghost use Rattle.weight_tallies.specs.Tallied as tallied;
ghost use Rattle.weight_tallies.specs.Tallies as tally;
ghost use Rattle.weight_stmt.specs.Turns.{Loops, loop_of, loop_tested, with_found};

use fort_syntax::{Dialect, Line, Name, Param, Stmt, Unit};
use weight_calls::Subject;
use weight_caps::{Load, plus};
use weight_expr::{constant, read};
use weight_terms::NameWeights;

/// A weight and one.
pub(crate) fn next(weight: u32) -> u32
    ensures { result ≡ tallied.next weight }
{
    plus(weight, 1)
}

/// Two weights and one.
pub(crate) fn pair(first: u32, second: u32) -> u32
    ensures { result ≡ tallied.pair first second }
{
    plus(plus(first, second), 1)
}

/// A parameter: a constant, or a name that is read.
pub(crate) fn parameter(
    subject: &Subject,
    names: &NameWeights,
    load: &mut Load,
    param: Param,
) -> u32
    ensures load { load.new ≡ (tally.parameter (sight_of subject.now) (held names.now) param load.old).load }
    ensures value { result ≡ (tally.parameter (sight_of subject.now) (held names.now) param load.old).value }
{
    match param {
        Param::Fixed(number) => constant(subject, load, number),
        Param::Named(name) => read(load, names.of(&name)),
    }
}

/// A step; one that is absent weighs 1.
pub(crate) fn step_weight(
    subject: &Subject,
    names: &NameWeights,
    load: &mut Load,
    step: Option<Param>,
) -> u32
    ensures load { load.new ≡ (tally.step_weight (sight_of subject.now) (held names.now) step load.old).load }
    ensures value { result ≡ (tally.step_weight (sight_of subject.now) (held names.now) step load.old).value }
{
    match step {
        Some(param) => parameter(subject, names, load, param),
        None => 1,
    }
}

/// A DO: its variable, its last value, and its step.
#[derive(Clone, Copy, Debug)]
pub(crate) struct Found {
    pub(crate) variable: Name,
    pub(crate) last: Param,
    pub(crate) step: Option<Param>,
}

/// The statement at a point, where there is one.
fn line_at(unit: &Unit, at: usize) -> Option<&Line>
    ensures { option_copied result ≡ slice_get unit.now.lines at }
{
    unit.lines.as_slice().get(at)
}

/// The DO at a point, where one stands there.
pub(crate) fn loop_at(unit: &Unit, at: usize) -> Option<Found>
    ensures { (ds : Loops) → with_line at (slice_get unit.now.lines at) ds ≡ with_found at result ds }
{
    let Some(line) = line_at(unit, at) else {
        return None;
    };
    match &line.stmt {
        Stmt::Do(_, variable, _, last, step) => Some(Found {
            variable: *variable,
            last: *last,
            step: *step,
        }),
        _ => None,
    }
}

/// A DO is tested: its variable and its step make a sum, and a choice is decided by the sum and the
/// last value. It answers the weight of the sum.
pub(crate) fn loop_tested(
    subject: &Subject,
    names: &NameWeights,
    load: &mut Load,
    found: &Found,
) -> u32
    ensures load { (at : ℕ) → load.new ≡ (loop_tested (sight_of subject.now) (held names.now)
        (loop_of at found.now) load.old).load }
    ensures value { (at : ℕ) → result ≡ (loop_tested (sight_of subject.now) (held names.now)
        (loop_of at found.now) load.old).value }
{
    let variable = read(load, names.of(&found.variable));
    let step = step_weight(subject, names, load, found.step);
    let sum = read(load, pair(variable, step));
    let last = parameter(subject, names, load, found.last);
    load.decide(pair(sum, last));
    sum
}

/// What the variable of a DO weighs that is left.
pub(crate) fn left_with(dialect: Dialect, sum: u32) -> u32
    ensures { result ≡ tally.left_with dialect sum }
{
    match dialect {
        Dialect::Common => 1,
        Dialect::SeventySeven => next(sum),
    }
}
