// The beginning of a DO.
ghost use Rattle.std.specs.Prelude.{◌≡◌, Result};
ghost use Rattle.run_jumps.specs.Jumps.{begun, did_begin, with_content};

use fort_syntax::{Dialect, Kind};
use run_elements::value_at;
use run_held::Held;
use run_intrinsics::begun;
use run_state::{Setting, State};

/// The first cell of the name of a slot gets a content.
pub fn set(m: &mut State, slot: usize, content: Held)
    ensures { m.new ≡ with_content slot content m.old }
{
    let place = m.extent(slot).first;
    m.cells.store(place, content);
}

/// A DO is entered or passed over.
fn begin_so(m: &mut State, entered: Result<bool, Kind>, slot: usize, point: usize, first: i64)
    ensures { m.new ≡ begun entered slot point first m.old }
{
    let entered = match entered {
        Ok(entered) => entered,
        Err(kind) => return m.fail(kind),
    };
    set(m, slot, Held::int(first));
    m.values.drop_newest();
    m.values.drop_newest();
    m.values.drop_newest();
    if entered {
        m.go_to(point);
    }
}

/// A DO with the variable of a slot begins by the three newest values, and goes on at a point.
pub fn begin(m: &mut State, dialect: Dialect, setting: &Setting, slot: usize, point: usize)
    ensures { m.new ≡ did_begin dialect setting.now slot point m.old }
{
    let first = value_at(&m.values, 2).num();
    let last = value_at(&m.values, 1).num();
    let by = value_at(&m.values, 0).num();
    let entered = begun(dialect, setting.bounds, first, last, by);
    begin_so(m, entered, slot, point, first);
}
