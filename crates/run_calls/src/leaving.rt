// A unit is left.
ghost use Rattle.std.specs.Prelude.{◌≡◌, ◌≢◌, ◌+◌, ◌<◌, [], length, slice_get};
ghost use Rattle.run_calls.specs.Calls.{back_in, cleared, copies_in, given_back, given_back_all, left, new_size, restored, returned, value_at};
ghost use Rattle.run_state.specs.Deeds.{newest_in, under_in};

use crate::manners::copies;
use run_held::Held;
use run_shapes::{Code, UnitCode};
use run_state::{Frame, Item, Setting, Stage, State, no_item};

/// The value of a unit, which is about to be left.
fn value(m: &State, unit: &UnitCode) -> Held
    ensures { result ≡ value_at unit.now m.now }
{
    if !unit.is_function {
        return Held::undefined();
    }
    m.cells.load(m.extent(unit.value).first)
}

/// The cells of a unit's own, its names and its values are dropped.
fn clear(m: &mut State)
    ensures { m.new ≡ cleared m.old }
{
    m.cells.keep(m.frame.before);
    m.extents.keep(m.frame.extents);
    m.values.keep(m.frame.floor);
}

/// How many new cells an actual had.
fn size(copy: bool, item: &Item) -> usize
    ensures { result ≡ new_size copy item.now }
{
    match *item {
        Item::Fresh(_) => 1,
        Item::Cells(extent) => { if copy { extent.size } else { 0 } }
    }
}

/// Writes a copy back, whose cells begin at `next`.
fn give_back(m: &mut State, copy: bool, item: &Item, next: usize)
    ensures { m.new ≡ given_back copy item.now next m.old }
{
    if let Item::Cells(extent) = *item {
        if copy {
            m.cells.moved(next, extent.first, extent.size);
        }
    }
}

/// Writes the copies back of the call that a frame of a unit waited for.
fn restore(m: &mut State, setting: &Setting, unit: &UnitCode, frame: Frame)
    ensures { m.new ≡ restored setting.now unit.now frame m.old }
{
    let mut next = frame.base;
    for i in 0..frame.actuals {
        let item = m.values.below_or(frame.actuals - 1 - i, no_item());
        let copy = copies(setting, &unit.name, frame.number, i + 1);
        give_back(m, copy, &item, next);
        next = next.saturating_add(size(copy, &item));
    }
}

/// Goes back into a frame with a value in the place of the actuals.
fn go_back(m: &mut State, frame: Frame, value: Held)
    requires { length (under_in frame.actuals m.old.values.items) < m.old.values.room }
    ensures { m.new ≡ back_in frame value m.old }
{
    let height = m.values.len().saturating_sub(frame.actuals);
    m.values.keep(height);
    m.values.push(Item::Fresh(value));
    m.cells.keep(frame.base);
    m.frame = frame;
    m.stage = Stage::Inside;
}

/// Goes on in the unit of a frame that waited for a call, which has come to a value.
fn resume(m: &mut State, code: &Code, setting: &Setting, frame: Frame, value: Held)
    requires { length (under_in frame.actuals m.old.values.items) < m.old.values.room }
    ensures { m.new ≡ returned setting.now (slice_get code.now.units frame.unit) frame value m.old }
{
    match code.units.as_slice().get(frame.unit) {
        None => m.lose(),
        Some(caller) => {
            restore(m, setting, caller, frame);
            go_back(m, frame, value);
        }
    }
}

/// Leaves a unit.
pub fn leave(m: &mut State, code: &Code, setting: &Setting, unit: &UnitCode)
    requires { m.old.callers.items ≢ [] → m.old.frame.floor < m.old.values.room }
    ensures { m.new ≡ left code.now setting.now unit.now m.old }
{
    let value = value(m, unit);
    clear(m);
    match m.callers.pop() {
        None => m.stage = Stage::Ended(value),
        Some(frame) => resume(m, code, setting, frame, value),
    }
}
