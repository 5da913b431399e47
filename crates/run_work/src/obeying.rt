// Each instruction.
ghost use Rattle.std.specs.Prelude.{◌≡◌, ◌<◌, length};
ghost use Rattle.run_work.specs.Obeying.{AreCallsReady, obeyed};

use crate::program::Program;
use crate::quick::{assign, load, number, operation, place};
use run_calls::refer;
use run_elements::does;
use run_jumps::leads;
use run_places::element;
use run_shapes::{Instr, UnitCode};
use run_state::State;

/// Does what an instruction of a unit says, which is seldom one of the most common ones.
#[inline(never)]
fn obey_seldom(m: &mut State, p: &Program<'_>, unit: &UnitCode, instr: &Instr)
    requires room { length m.old.values.items < m.old.values.room }
    requires calls { AreCallsReady unit.now m.old }
    ensures { m.new ≡ obeyed p.now unit.now instr.now m.old }
{
    match *instr {
        Instr::Refer(place) => refer(m, p.code, p.setting, unit, place),
        Instr::Go(_, _)
        | Instr::Tests(_, _)
        | Instr::Jump(_)
        | Instr::Turn
        | Instr::Signs(_)
        | Instr::Ways(_, _)
        | Instr::Choose(_, _)
        | Instr::BeginDo(_, _)
        | Instr::ResultOf
        | Instr::Stop => leads(m, p.code.dialect, unit, p.setting, *instr),
        Instr::Array(slot, count) => element(m, unit, slot, count),
        _ => does(m, p.setting, *instr),
    }
}

/// Does what an instruction of a unit says.
#[inline(always)]
pub(crate) fn obey(m: &mut State, p: &Program<'_>, unit: &UnitCode, instr: &Instr)
    requires room { length m.old.values.items < m.old.values.room }
    requires calls { AreCallsReady unit.now m.old }
    ensures { m.new ≡ obeyed p.now unit.now instr.now m.old }
{
    match *instr {
        Instr::Load(slot) => load(m, slot),
        Instr::Number(constant) => number(m, p.setting, constant),
        Instr::Operation(sign) => operation(m, p.setting, sign),
        Instr::Place(slot) => place(m, slot),
        Instr::Assigned => assign(m),
        Instr::Go(_, point) => m.go_to(point),
        Instr::Tests(card, place) => m.put_to_test(card as usize, place),
        _ => obey_seldom(m, p, unit, instr),
    }
}
