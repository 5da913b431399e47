// Assignments of sums and differences, whose instructions are done at once.
ghost use Rattle.std.specs.Prelude.{◌≡◌, None, Some, MatchOption, slice_get};
ghost use Rattle.run_state.specs.declared.machine.Stage.TheVariants as stage;
ghost use Rattle.run_work.specs.AtOnce.{MayAct, assigned_at, is_assignment, made_of, operand_to, plain_to, slot_of, sum_to, value_of};
ghost use Rattle.run_work.specs.Ways.{CanWork};

use crate::program::Program;
use crate::quick::{added, taken_off};
use fort_model::Bounds;
use fort_syntax::{BinOp, Kind};
use run_elements::read;
use run_held::{Held, constant};
use run_shapes::{Instr, UnitCode};
use run_state::{Setting, State};

/// A value, where there is no error.
#[inline(always)]
fn value_of(value: Result<Held, Kind>) -> Option<Held>
    ensures { result ≡ value_of value }
{
    match value {
        Ok(held) => Some(held),
        Err(_) => None,
    }
}

/// The value that a constant or a defined name puts behind the others.
#[inline(always)]
fn operand(m: &State, setting: &Setting, instr: &Instr) -> Option<Held>
    ensures { result ≡ operand_to setting.now instr.now m.now }
{
    match *instr {
        Instr::Load(slot) => value_of(read(&m.cells, m.extent(slot).first)),
        Instr::Number(number) => value_of(constant(setting.bounds, number)),
        _ => None,
    }
}

/// A sum or a difference, where it is no error.
#[inline(always)]
fn plain(bounds: Bounds, sign: BinOp, left: &Held, right: &Held) -> Option<Held>
    ensures { result ≡ plain_to bounds sign left.now right.now }
{
    match sign {
        BinOp::Add => value_of(added(bounds, left.num(), right.num())),
        BinOp::Sub => value_of(taken_off(bounds, left.num(), right.num())),
        _ => None,
    }
}

/// What an operator makes so of two operands.
#[inline(always)]
fn made_of(m: &State, setting: &Setting, sign: BinOp, a: &Instr, b: &Instr) -> Option<Held>
    ensures { result ≡ made_of setting.now.bounds sign (operand_to setting.now a.now m.now)
        (operand_to setting.now b.now m.now) }
{
    let Some(left) = operand(m, setting, a) else {
        return None;
    };
    let Some(right) = operand(m, setting, b) else {
        return None;
    };
    plain(setting.bounds, sign, &left, &right)
}

/// The value that two operands and an operator put behind the others.
#[inline(always)]
fn sum(m: &State, setting: &Setting, a: &Instr, b: &Instr, sign: &Instr) -> Option<Held>
    ensures { result ≡ sum_to setting.now a.now b.now sign.now m.now }
{
    match *sign {
        Instr::Operation(sign) => made_of(m, setting, sign, a, b),
        _ => None,
    }
}

/// The slot of the name whose cells are taken.
#[inline(always)]
fn slot_of(instr: &Instr) -> Option<usize>
    ensures { result ≡ slot_of instr.now }
{
    match *instr {
        Instr::Place(slot) => Some(slot),
        _ => None,
    }
}

/// Whether it is the assignment.
#[inline(always)]
fn is_assignment(instr: &Instr) -> bool
    ensures { result ≡ is_assignment instr.now }
{
    match *instr {
        Instr::Assigned => true,
        _ => false,
    }
}

/// A name gets a value, and the flow goes on at an instruction.
#[inline(always)]
fn assign_at(m: &mut State, slot: usize, value: Held, place: usize)
    ensures { m.new ≡ assigned_at slot value place m.old }
{
    let extent = m.extent(slot);
    m.cells.store(extent.first, value);
    m.frame.place = place;
}

/// An instruction of a unit.
#[inline(always)]
fn instr_at<'a>(unit: &'a UnitCode, place: usize) -> Option<&'a Instr>
    ensures { MatchOption result (slice_get unit.now.instrs place ≡ None)
        (λ instr. slice_get unit.now.instrs place ≡ Some instr.now) }
{
    match unit.instrs.as_slice().get(place) {
        None => None,
        Some(instr) => Some(instr),
    }
}

/// Does the assignment of a sum or difference where one stands next that makes no error. It tells whether one did.
#[inline(always)]
pub(crate) fn assign_sum(m: &mut State, p: &Program<'_>, unit: &UnitCode) -> bool
    requires can { CanWork p.now m.old }
    requires inside { m.old.stage ≡ stage.Inside }
    requires coded { slice_get p.now.code.now.units m.old.frame.unit ≡ Some unit.now }
    ensures { MayAct result p.now m.old m.new }
{
    let place = m.frame.place;
    if m.frame.stop.saturating_sub(place) < 5 {
        return false;
    }
    let Some(a) = instr_at(unit, place) else {
        return false;
    };
    let Some(b) = instr_at(unit, place + 1) else {
        return false;
    };
    let Some(sign) = instr_at(unit, place + 2) else {
        return false;
    };
    let Some(taken) = instr_at(unit, place + 3) else {
        return false;
    };
    let Some(assigned) = instr_at(unit, place + 4) else {
        return false;
    };
    let Some(slot) = slot_of(taken) else {
        return false;
    };
    if !is_assignment(assigned) {
        return false;
    }
    let Some(value) = sum(m, p.setting, a, b, sign) else {
        return false;
    };
    assign_at(m, slot, value, place + 5);
    true
}
