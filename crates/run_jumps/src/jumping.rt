// Each instruction that leads elsewhere.
ghost use Rattle.std.specs.Prelude.{◌≡◌};
ghost use Rattle.run_jumps.specs.Jumps.{JumpsAreObeyed, PointsAreReached, did_result, led};

use crate::begins::begin;
use crate::choices::{choose, signs, turn, ways};
use fort_syntax::{Dialect, Kind};
use run_shapes::{Instr, UnitCode};
use run_state::{Setting, State};

/// Instructions that lead elsewhere do what the model says. It does nothing.
pub fn jumps_are_obeyed()
    ensures { JumpsAreObeyed }
{}

/// So do those to a point where no DO is tested. It does nothing.
pub fn points_are_reached()
    ensures { PointsAreReached }
{}

/// The value of a FUNCTION must be defined.
fn result_of(m: &mut State, unit: &UnitCode)
    ensures { m.new ≡ did_result unit.now m.old }
{
    if unit.is_function && !m.cells.load(m.extent(unit.value).first).is_defined() {
        m.fail(Kind::ResultCheck);
    }
}

/// Does what an instruction says.
pub fn leads(m: &mut State, dialect: Dialect, unit: &UnitCode, setting: &Setting, instr: Instr)
    ensures { m.new ≡ led dialect unit.now setting.now instr m.old }
{
    match instr {
        Instr::Go(_, point) => m.go_to(point),
        Instr::Tests(card, place) => m.put_to_test(card as usize, place),
        Instr::Jump(point) => m.go_to(point),
        Instr::Turn => turn(m),
        Instr::Signs(place) => signs(m, unit, place),
        Instr::Ways(if_true, if_false) => ways(m, if_true, if_false),
        Instr::Choose(place, count) => choose(m, dialect, unit, place, count),
        Instr::BeginDo(slot, point) => begin(m, dialect, setting, slot, point),
        Instr::ResultOf => result_of(m, unit),
        _ => m.lose(),
    }
}
