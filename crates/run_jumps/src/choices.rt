// Instructions that lead to one of several points by the newest value.
ghost use Rattle.std.specs.Prelude.{◌≡◌, ◌+◌, ℤ, cond, get_or, Option};
ghost use Rattle.formula.specs.Values.{count};
ghost use Rattle.run_jumps.specs.Jumps.{chose, did_choose, did_signs, did_turn, did_ways, left_for, point_at, point_by_sign, turned};

use fort_syntax::{Dialect, Kind};
use run_elements::{forget, value_at};
use run_held::Held;
use run_shapes::UnitCode;
use run_state::{Stage, State};

/// On to a point, with the newest value let go.
fn leave_for(m: &mut State, point: usize)
    ensures { m.new ≡ left_for 1 point m.old }
{
    m.values.drop_newest();
    m.go_to(point);
}

/// To the carried statement, behind the next instruction, where a condition is true.
fn turn_by(m: &mut State, holds: bool)
    ensures { m.new ≡ turned holds m.old }
{
    forget(m);
    if holds {
        m.stage = Stage::Carried;
        m.frame.place = m.frame.place.saturating_add(1);
    }
}

/// To the carried statement, behind the next instruction, where the newest value is true.
pub fn turn(m: &mut State)
    ensures { m.new ≡ did_turn m.old }
{
    let holds = value_at(&m.values, 0).holds();
    turn_by(m, holds);
}

/// A target so many behind another one; 0 where there is none.
fn target(unit: &UnitCode, place: usize, offset: usize) -> usize
    ensures { result ≡ get_or unit.now.targets (place + offset) 0 }
{
    match unit.targets.as_slice().get(place.saturating_add(offset)) {
        Some(point) => *point,
        None => 0,
    }
}

/// One of three points by the sign of a value.
fn by_sign(unit: &UnitCode, place: usize, value: &Held) -> usize
    ensures { result ≡ point_by_sign value.now (get_or unit.now.targets place 0)
        (get_or unit.now.targets (place + 1) 0) (get_or unit.now.targets (place + 2) 0) }
{
    if value.num() < 0 {
        target(unit, place, 0)
    } else if value.is_same(&Held::int(0)) {
        target(unit, place, 1)
    } else {
        target(unit, place, 2)
    }
}

/// On to one of three points by the sign of the newest value.
pub fn signs(m: &mut State, unit: &UnitCode, place: usize)
    ensures { m.new ≡ did_signs unit.now place m.old }
{
    let point = by_sign(unit, place, &value_at(&m.values, 0));
    leave_for(m, point);
}

/// On to one of two points.
pub fn ways(m: &mut State, if_true: usize, if_false: usize)
    ensures { m.new ≡ did_ways if_true if_false m.old }
{
    let holds = value_at(&m.values, 0).holds();
    leave_for(m, if holds { if_true } else { if_false });
}

/// What a number counts; a negative one counts nothing.
fn counted(number: i64) -> usize
    ensures { result ≡ count number }
{
    if number < 0 { 0 } else { number as usize }
}

/// The point that a number counts, among so many from a place of the unit's table on.
fn point_at(unit: &UnitCode, place: usize, count: usize, number: i64) -> Option<usize>
    ensures { result ≡ point_at unit.now.targets place count number }
{
    let counted = counted(number);
    if counted == 0 || counted > count {
        return None;
    }
    unit.targets
        .as_slice()
        .get(place.saturating_add(counted - 1))
        .copied()
}

/// On to a point, or what is done where there is none.
fn choose_by(m: &mut State, dialect: Dialect, point: Option<usize>)
    ensures { m.new ≡ chose dialect point m.old }
{
    match point {
        Some(point) => leave_for(m, point),
        None => match dialect {
            Dialect::Common => m.fail(Kind::ChoiceCheck),
            Dialect::SeventySeven => forget(m),
        },
    }
}

/// On to one of several points by the newest value.
pub fn choose(m: &mut State, dialect: Dialect, unit: &UnitCode, place: usize, count: usize)
    ensures { m.new ≡ did_choose dialect unit.now place count m.old }
{
    let number = value_at(&m.values, 0).num();
    let point = point_at(unit, place, count, number);
    choose_by(m, dialect, point);
}
