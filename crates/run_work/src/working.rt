// Work, which takes no step.
ghost use Rattle.std.specs.Prelude.{◌≡◌, None, Some, slice_get};
ghost use Rattle.run_state.specs.Rests.{IsSettled, MayWork, Same};
ghost use Rattle.run_state.specs.declared.machine.Stage.TheVariants as stage;
ghost use Rattle.run_work.specs.Ways.{CanWork};

use crate::acting::act_on;
use crate::program::Program;
use run_calls::leave;
use run_shapes::{Test, UnitCode};
use run_state::{Stage, State};

/// Leaves a unit at its end. It tells whether it was there.
fn end(m: &mut State, p: &Program<'_>, unit: &UnitCode) -> bool
    requires can { CanWork p.now m.old }
    requires between { m.old.stage ≡ stage.Between }
    requires coded { slice_get p.now.code.now.units m.old.frame.unit ≡ Some unit.now }
    ensures work { MayWork result p.now.code.now p.now.setting.now m.old m.new }
    ensures can { CanWork p.now m.new }
{
    match unit.lines.as_slice().get(m.frame.line) {
        Some(_) => false,
        None => {
            leave(m, p.code, p.setting, unit);
            true
        }
    }
}

/// Goes on to a point behind the tests of DOs. It tells whether no test stands next.
fn pass(m: &mut State, p: &Program<'_>, unit: &UnitCode) -> bool
    requires can { CanWork p.now m.old }
    requires testing { m.old.stage ≡ stage.Testing }
    requires coded { slice_get p.now.code.now.units m.old.frame.unit ≡ Some unit.now }
    ensures work { MayWork result p.now.code.now p.now.setting.now m.old m.new }
    ensures can { CanWork p.now m.new }
{
    match unit.tests.as_slice().get(m.frame.place) {
        None => {
            m.go_to(0);
            true
        }
        Some(test) => match *test {
            Test::Loop(_) => false,
            Test::Out(point) => {
                m.go_to(point);
                true
            }
        },
    }
}

/// Does a piece of work in a unit, where no step is wanted first. It tells whether there was one.
fn work_in(m: &mut State, p: &Program<'_>, unit: &UnitCode) -> bool
    requires can { CanWork p.now m.old }
    requires coded { slice_get p.now.code.now.units m.old.frame.unit ≡ Some unit.now }
    ensures work { MayWork result p.now.code.now p.now.setting.now m.old m.new }
    ensures can { CanWork p.now m.new }
{
    match m.stage {
        Stage::Inside => {
            act_on(m, p, unit);
            true
        }
        Stage::Between => end(m, p, unit),
        Stage::Testing => pass(m, p, unit),
        _ => false,
    }
}

/// What is done where no unit is run. It tells whether that is work.
fn work_nowhere(m: &mut State, p: &Program<'_>) -> bool
    requires can { CanWork p.now m.old }
    requires missing { slice_get p.now.code.now.units m.old.frame.unit ≡ None }
    ensures work { MayWork result p.now.code.now p.now.setting.now m.old m.new }
    ensures can { CanWork p.now m.new }
{
    match m.stage {
        Stage::Inside | Stage::Between | Stage::Testing => {
            m.lose();
            true
        }
        _ => false,
    }
}

/// Does a piece of work, where no step is wanted first. It tells whether there was one.
fn work(m: &mut State, p: &Program<'_>) -> bool
    requires { CanWork p.now m.old }
    ensures work { MayWork result p.now.code.now p.now.setting.now m.old m.new }
    ensures can { CanWork p.now m.new }
{
    match p.code.units.as_slice().get(m.frame.unit) {
        None => work_nowhere(m, p),
        Some(unit) => work_in(m, p, unit),
    }
}

/// Works until a step is wanted.
pub(crate) fn settle(m: &mut State, p: &Program<'_>)
    requires { CanWork p.now m.old }
    ensures same { Same p.now.code.now p.now.setting.now m.old m.new }
    ensures settled { IsSettled p.now.code.now m.new }
    ensures can { CanWork p.now m.new }
{
    while work(m, p) {}
}
