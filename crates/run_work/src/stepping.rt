// Steps.
ghost use Rattle.std.specs.Prelude.{◌≡◌, ◌<◌, ◌^◌, None, Some, length, slice_get};
ghost use Rattle.run_ranks.specs.Needs.{rank_at};
ghost use Rattle.run_ranks.specs.Laws.{line_begun};
ghost use Rattle.run_state.specs.Deeds.{with_stage};
ghost use Rattle.run_state.specs.Rests.{IsSettled};
ghost use Rattle.run_state.specs.declared.machine.Stage.TheVariants as stage;
ghost use Rattle.run_shapes.specs.declared.tests.Test.TheVariants as tests;
ghost use Rattle.run_work.specs.Ways.{CanWork, MayStepOf, SteppedOf};

use crate::program::Program;
use run_calls::enter;
use run_jumps::test;
use run_ranks::Ranks;
use run_shapes::{LineCode, Round, Test, UnitCode};
use run_state::{Stage, State};

/// How many cells each own name of a unit has.
fn own_sizes<'a>(ranks: &'a Ranks, unit: usize) -> &'a [usize]
    ensures { result.now ≡ (rank_at ranks.now unit).own }
{
    match ranks.units.as_slice().get(unit) {
        None => &[],
        Some(rank) => rank.own.as_slice(),
    }
}

/// A unit is entered.
fn enter_unit(m: &mut State, p: &Program<'_>, unit: &UnitCode)
    requires can { CanWork p.now m.old }
    requires entering { m.old.stage ≡ stage.Entering }
    requires coded { slice_get p.now.code.now.units m.old.frame.unit ≡ Some unit.now }
    ensures steps { SteppedOf p.now.units.now p.now.code.now p.now.setting.now m.old m.new }
    ensures can { CanWork p.now m.new }
{
    let sizes = own_sizes(p.ranks, m.frame.unit);
    enter(m, sizes, unit.shared.as_slice());
}

/// The code of a statement begins.
fn begin(m: &mut State, line: LineCode)
    ensures { m.new ≡ line_begun line m.old }
{
    m.stage = Stage::Inside;
    m.frame.place = line.start;
    m.frame.stop = line.stop;
    m.frame.card = line.card as usize;
}

/// A statement begins. It tells whether there was one.
fn begin_line(m: &mut State, p: &Program<'_>, unit: &UnitCode) -> bool
    requires can { CanWork p.now m.old }
    requires settled { IsSettled p.now.code.now m.old }
    requires between { m.old.stage ≡ stage.Between }
    requires coded { slice_get p.now.code.now.units m.old.frame.unit ≡ Some unit.now }
    ensures steps { MayStepOf result p.now.units.now p.now.code.now p.now.setting.now m.old m.new }
    ensures can { CanWork p.now m.new }
{
    match unit.lines.as_slice().get(m.frame.line) {
        None => false,
        Some(line) => {
            begin(m, *line);
            true
        }
    }
}

/// A carried statement begins.
fn carry(m: &mut State, p: &Program<'_>)
    requires can { CanWork p.now m.old }
    requires carried { m.old.stage ≡ stage.Carried }
    ensures steps { SteppedOf p.now.units.now p.now.code.now p.now.setting.now m.old m.new }
    ensures can { CanWork p.now m.new }
{
    m.stage = Stage::Inside;
}

/// A unit has no more tests and statements than a machine can count.
fn tables_are_short(unit: &UnitCode)
    ensures tests { length unit.now.tests < 2 ^ 64 }
    ensures lines { length unit.now.lines < 2 ^ 64 }
{
    let _ = unit.tests.as_slice().len();
    let _ = unit.lines.as_slice().len();
}

/// A DO is tested that stands next.
fn test_round(m: &mut State, p: &Program<'_>, unit: &UnitCode, round: Round)
    requires can { CanWork p.now m.old }
    requires testing { m.old.stage ≡ stage.Testing }
    requires coded { slice_get p.now.code.now.units m.old.frame.unit ≡ Some unit.now }
    requires stands { slice_get unit.now.tests m.old.frame.place ≡ Some (tests.Loop round) }
    ensures steps { SteppedOf p.now.units.now p.now.code.now p.now.setting.now m.old m.new }
    ensures can { CanWork p.now m.new }
{
    tables_are_short(unit);
    test(m, p.code.dialect, p.setting, round);
}

/// A test of a DO, where one stands next. It tells whether one did.
fn test_next(m: &mut State, p: &Program<'_>, unit: &UnitCode) -> bool
    requires can { CanWork p.now m.old }
    requires settled { IsSettled p.now.code.now m.old }
    requires testing { m.old.stage ≡ stage.Testing }
    requires coded { slice_get p.now.code.now.units m.old.frame.unit ≡ Some unit.now }
    ensures steps { MayStepOf result p.now.units.now p.now.code.now p.now.setting.now m.old m.new }
    ensures can { CanWork p.now m.new }
{
    match unit.tests.as_slice().get(m.frame.place) {
        None => false,
        Some(next) => match *next {
            Test::Out(_) => false,
            Test::Loop(round) => {
                test_round(m, p, unit, round);
                true
            }
        },
    }
}

/// Takes a step in a unit, where one is wanted. It tells whether one was.
fn step_in(m: &mut State, p: &Program<'_>, unit: &UnitCode) -> bool
    requires can { CanWork p.now m.old }
    requires settled { IsSettled p.now.code.now m.old }
    requires coded { slice_get p.now.code.now.units m.old.frame.unit ≡ Some unit.now }
    ensures steps { MayStepOf result p.now.units.now p.now.code.now p.now.setting.now m.old m.new }
    ensures can { CanWork p.now m.new }
{
    match m.stage {
        Stage::Entering => {
            enter_unit(m, p, unit);
            true
        }
        Stage::Between => begin_line(m, p, unit),
        Stage::Carried => {
            carry(m, p);
            true
        }
        Stage::Testing => test_next(m, p, unit),
        _ => false,
    }
}

/// What a step does where no unit is run. It tells whether that is a step.
fn step_nowhere(m: &mut State, p: &Program<'_>) -> bool
    requires can { CanWork p.now m.old }
    requires settled { IsSettled p.now.code.now m.old }
    requires missing { slice_get p.now.code.now.units m.old.frame.unit ≡ None }
    ensures steps { MayStepOf result p.now.units.now p.now.code.now p.now.setting.now m.old m.new }
    ensures can { CanWork p.now m.new }
{
    match m.stage {
        Stage::Entering | Stage::Between | Stage::Carried | Stage::Testing => {
            m.lose();
            true
        }
        _ => false,
    }
}

/// Takes a step, where one is wanted. It tells whether one was.
pub(crate) fn step(m: &mut State, p: &Program<'_>) -> bool
    requires can { CanWork p.now m.old }
    requires settled { IsSettled p.now.code.now m.old }
    ensures steps { MayStepOf result p.now.units.now p.now.code.now p.now.setting.now m.old m.new }
    ensures can { CanWork p.now m.new }
{
    match p.code.units.as_slice().get(m.frame.unit) {
        None => step_nowhere(m, p),
        Some(unit) => step_in(m, p, unit),
    }
}
