// A unit is entered.
ghost use Rattle.std.specs.Prelude.{◌≡◌, ◌+◌, ◌≤◌, ◌<◌, length, sum};
ghost use Rattle.run_calls.specs.Calls.{HasRoomToGive, begun, entered, given_all, given_cells, shared_all, shared_one};

use run_state::{Extent, Stage, State, no_cells};

/// A name gets so many new cells.
fn give(m: &mut State, size: usize)
    requires extents { length m.old.extents.items < m.old.extents.room }
    requires cells { length m.old.cells.items + size ≤ m.old.cells.room }
    ensures { m.new ≡ given_cells size m.old }
{
    let first = m.cells.len();
    m.extents.push(Extent { first, size });
    m.cells.extend(size);
}

/// Names get new cells, so many each.
fn give_all(m: &mut State, sizes: &[usize])
    requires { HasRoomToGive sizes.now m.old }
    ensures { m.new ≡ given_all sizes.now m.old }
{
    for i in 0..sizes.len() {
        give(m, sizes[i]);
    }
}

/// A COMMON entity has the cells that it has in the whole run.
fn share(m: &mut State, place: usize)
    requires { length m.old.extents.items < m.old.extents.room }
    ensures { m.new ≡ shared_one place m.old }
{
    let extent = m.extents.item_or(place, no_cells());
    m.extents.push(extent);
}

/// COMMON entities have the cells that they have in the whole run.
fn share_all(m: &mut State, places: &[usize])
    requires { length m.old.extents.items + length places.now ≤ m.old.extents.room }
    ensures { m.new ≡ shared_all places.now m.old }
{
    for i in 0..places.len() {
        share(m, places[i]);
    }
}

/// Begins with the first statement of a unit.
fn begin(m: &mut State)
    ensures { m.new ≡ begun m.old }
{
    m.stage = Stage::Between;
    m.frame.line = 0;
    m.frame.before = m.cells.len();
    m.frame.floor = m.values.len();
}

/// Enters a unit whose own names have so many cells each, and whose COMMON entities stand at these
/// places among those of the deck.
pub fn enter(m: &mut State, sizes: &[usize], shared: &[usize])
    requires extents { length m.old.extents.items + length sizes.now + length shared.now
        ≤ m.old.extents.room }
    requires cells { length m.old.cells.items + sum sizes.now ≤ m.old.cells.room }
    ensures { m.new ≡ entered sizes.now shared.now m.old }
{
    begin(m);
    give_all(m, sizes);
    share_all(m, shared);
}
