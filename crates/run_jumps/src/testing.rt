// One test of a DO.
ghost use Rattle.std.specs.Prelude.{◌≡◌, ◌<◌, ◌-◌, ◌^◌, Result};
ghost use Rattle.fort_model.specs.Perform.{left_with};
ghost use Rattle.run_jumps.specs.Rounds.{RoundsAreTaken, amount_to, did_round, did_test, step_to, went_round};

use crate::begins::set;
use fort_syntax::{Dialect, Kind};
use run_elements::read;
use run_held::{Held, constant};
use run_intrinsics::summed;
use run_shapes::{Amount, Round};
use run_state::{Setting, State};

/// Tests of DOs take steps as the model says. It does nothing.
pub fn rounds_are_taken()
    ensures { RoundsAreTaken }
{}

/// A last value or a step.
fn amount(m: &State, setting: &Setting, amount: Amount) -> Result<Held, Kind>
    ensures { result ≡ amount_to setting.now m.now amount }
{
    match amount {
        Amount::Fixed(number) => constant(setting.bounds, number),
        Amount::Named(slot) => read(&m.cells, m.extent(slot).first),
    }
}

/// A step, where there is one; else 1.
fn step(m: &State, setting: &Setting, by: Option<Amount>) -> Result<Held, Kind>
    ensures { result ≡ step_to setting.now m.now by }
{
    match by {
        Some(by) => amount(m, setting, by),
        None => Ok(Held::int(1)),
    }
}

/// What a DO that is left leaves in its variable.
fn left_with(dialect: Dialect, sum: &Held) -> Held
    ensures { result ≡ left_with dialect sum.now }
{
    match dialect {
        Dialect::Common => Held::undefined(),
        Dialect::SeventySeven => *sum,
    }
}

/// A DO goes round again, or is left for the next test.
fn go_round(m: &mut State, dialect: Dialect, round: Round, again: bool, sum: &Held)
    requires place_near { m.old.frame.place < 2 ^ 64 - 1 }
    requires point_near { round.at < 2 ^ 64 - 1 }
    ensures { m.new ≡ went_round dialect round again sum.now m.old }
{
    if again {
        set(m, round.variable, *sum);
        m.go_to(round.at + 1);
        return;
    }
    let left = left_with(dialect, sum);
    set(m, round.variable, left);
    let card = m.frame.card;
    let next = m.frame.place + 1;
    m.put_to_test(card, next);
}

/// A test by the sum of the variable and the step.
fn test_by(
    m: &mut State,
    dialect: Dialect,
    setting: &Setting,
    round: Round,
    sum: Result<Held, Kind>,
)
    requires place_near { m.old.frame.place < 2 ^ 64 - 1 }
    requires point_near { round.at < 2 ^ 64 - 1 }
    ensures { m.new ≡ did_round dialect setting.now round sum m.old }
{
    let sum = match sum {
        Ok(sum) => sum,
        Err(kind) => return m.fail(kind),
    };
    match amount(m, setting, round.last) {
        Ok(last) => {
            let again = sum.num() <= last.num();
            go_round(m, dialect, round, again, &sum);
        }
        Err(kind) => m.fail(kind),
    }
}

/// One test of a DO, behind its step.
pub fn test(m: &mut State, dialect: Dialect, setting: &Setting, round: Round)
    requires place_near { m.old.frame.place < 2 ^ 64 - 1 }
    requires point_near { round.at < 2 ^ 64 - 1 }
    ensures { m.new ≡ did_test dialect setting.now round m.old }
{
    let variable = match read(&m.cells, m.extent(round.variable).first) {
        Ok(variable) => variable,
        Err(kind) => return m.fail(kind),
    };
    match step(m, setting, round.step) {
        Ok(by) => {
            let sum = summed(setting.bounds, &variable, &by);
            test_by(m, dialect, setting, round, sum);
        }
        Err(kind) => m.fail(kind),
    }
}
