// Other instructions of expressions, and the assignment.
ghost use Rattle.std.specs.Prelude.{◌≡◌, ◌<◌, length, Result};
ghost use Rattle.run_elements.specs.Elements.{decided, did_assign, did_forget, did_place, did_skip_false, did_skip_true};

use crate::reading::value_at;
use run_held::Held;
use run_state::{Item, Setting, State, no_item};

/// The cells of the name of a slot are taken.
pub fn place(m: &mut State, slot: usize)
    requires { length m.old.values.items < m.old.values.room }
    ensures { m.new ≡ did_place slot m.old }
{
    let extent = m.extent(slot);
    m.values.push(Item::Cells(extent));
}

/// A value is let go.
pub fn forget(m: &mut State)
    ensures { m.new ≡ did_forget m.old }
{
    m.values.drop_newest();
}

/// The newest value gives way to a truth value, and so many instructions are left out.
fn decide(m: &mut State, truth: bool, count: usize)
    requires { length m.old.values.items < m.old.values.room }
    ensures { m.new ≡ decided truth count m.old }
{
    m.values.drop_newest();
    m.values.push(Item::Fresh(Held::logical(truth)));
    m.frame.place = m.frame.place.saturating_add(count);
}

/// A lazy processor leaves out so many instructions where a left operand of `.AND.` is false.
pub fn skip_false(m: &mut State, setting: &Setting, count: usize)
    requires { length m.old.values.items < m.old.values.room }
    ensures { m.new ≡ did_skip_false setting.now count m.old }
{
    if setting.lazy && !value_at(&m.values, 0).holds() {
        decide(m, false, count);
    }
}

/// A lazy processor leaves out so many instructions where a left operand of `.OR.` is true.
pub fn skip_true(m: &mut State, setting: &Setting, count: usize)
    requires { length m.old.values.items < m.old.values.room }
    ensures { m.new ≡ did_skip_true setting.now count m.old }
{
    if setting.lazy && value_at(&m.values, 0).holds() {
        decide(m, true, count);
    }
}

/// A value is assigned to what was taken behind it.
pub fn assign(m: &mut State)
    ensures { m.new ≡ did_assign m.old }
{
    match m.values.newest_or(no_item()) {
        Item::Cells(extent) => {
            let content = value_at(&m.values, 1);
            m.cells.store(extent.first, content);
            m.values.drop_newest();
            m.values.drop_newest();
        }
        Item::Fresh(_) => m.lose(),
    }
}
