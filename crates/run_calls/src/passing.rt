// A call begins.
ghost use Rattle.std.specs.Prelude.{◌≡◌, ◌+◌, ◌≤◌, ◌<◌, [], length};
ghost use Rattle.run_calls.specs.Calls.{called, handed, handed_all, new_size, HasRoomFor};
ghost use Rattle.run_state.specs.Deeds.{newest_in};
ghost use Rattle.run_state.specs.Settings.{copies_by};

use crate::manners::copies;
use fort_syntax::Name;
use run_shapes::CallCode;
use run_state::{Extent, Frame, Item, Setting, Stage, State, no_item};

/// Passes an actual on, in a call before which there were `base` cells.
fn hand(m: &mut State, copy: bool, item: Item, base: usize)
    requires extents { length m.old.extents.items < m.old.extents.room }
    requires cells { length m.old.cells.items + new_size copy item ≤ m.old.cells.room }
    requires base { base ≤ length m.old.cells.items }
    ensures { m.new ≡ handed copy item base m.old }
{
    let first = m.cells.len();
    match item {
        Item::Fresh(held) => {
            m.extents.push(Extent { first, size: 1 });
            m.cells.push(held);
        }
        Item::Cells(extent) => {
            if copy {
                m.extents.push(Extent {
                    first,
                    size: extent.size,
                });
                m.cells.copied(extent.first, extent.size, base);
            } else {
                m.extents.push(extent);
            }
        }
    }
}

/// Passes so many actuals on, which stand at the top of the stack, in the call of a number.
fn hand_all(m: &mut State, setting: &Setting, unit: &Name, number: usize, count: usize)
    requires { HasRoomFor (newest_in count m.old.values.items []) m.old }
    ensures { m.new ≡ handed_all (copies_by setting.now.passing unit.now number) 1
        (length m.old.cells.items) (newest_in count m.old.values.items []) m.old }
{
    let base = m.cells.len();
    for i in 0..count {
        let item = m.values.below_or(count - 1 - i, no_item());
        let copy = copies(setting, unit, number, i + 1);
        hand(m, copy, item, base);
    }
}

/// A unit, whose name is at hand, calls another one, whose number is.
pub(crate) fn call(m: &mut State, setting: &Setting, unit: &Name, call: CallCode, callee: usize)
    requires room { HasRoomFor (newest_in call.actuals m.old.values.items []) m.old }
    requires frames { length m.old.callers.items < m.old.callers.room }
    ensures { m.new ≡ called (copies_by setting.now.passing unit.now call.number) call.number
        call.actuals callee m.old }
{
    let base = m.cells.len();
    let first = m.extents.len();
    let mut frame = m.frame;
    frame.number = call.number;
    frame.actuals = call.actuals;
    frame.base = base;
    hand_all(m, setting, unit, call.number, call.actuals);
    m.callers.push(frame);
    m.stage = Stage::Entering;
    m.frame = Frame {
        unit: callee,
        line: 0,
        place: 0,
        stop: 0,
        card: 0,
        extents: first,
        before: 0,
        floor: 0,
        number: 0,
        actuals: 0,
        base: 0,
    };
}
