// The instruction that takes an element.
ghost use Rattle.std.specs.Prelude.{◌≡◌, ◌+◌, ◌<◌, length, Option, slice_get};
ghost use Rattle.run_shapes.specs.Seen.{shape_at};
ghost use Rattle.run_places.specs.Arrays.{ArraysAreObeyed, did_array, dim_in, place_by, took};

use crate::places::{Place, counted, first_place, next};
use fort_syntax::Kind;
use run_elements::value_at;
use run_shapes::{Amount, Shape, Slots, UnitCode};
use run_state::{Extent, Item, State};

/// Elements of arrays are taken as the model says. It does nothing.
pub fn arrays_are_obeyed()
    ensures { ArraysAreObeyed }
{}

/// The shape of the name of a slot.
fn shape(slots: &Slots, slot: usize) -> Shape
    ensures { result ≡ shape_at slots.now slot }
{
    match slots.shapes.as_slice().get(slot) {
        Some(shape) => *shape,
        None => Shape { first: 0, rank: 0 },
    }
}

/// What stands so many behind a place of the table of dimensions.
fn amount(slots: &Slots, first: usize, offset: usize) -> Option<Amount>
    ensures { result ≡ slice_get slots.now.sizes (first + offset) }
{
    slots
        .sizes
        .as_slice()
        .get(first.saturating_add(offset))
        .copied()
}

/// A dimension.
fn dim(m: &State, amount: Amount) -> usize
    ensures { result ≡ dim_in m.now amount }
{
    match amount {
        Amount::Fixed(number) => number as usize,
        Amount::Named(slot) => counted(m.cells.load(m.extent(slot).first).num()),
    }
}

/// The place of an element by the newest so many values, in an array of a shape.
fn place(m: &State, slots: &Slots, shape: Shape, count: usize) -> Option<Place>
    ensures { result ≡ place_by m.now slots.now shape count }
{
    let mut place = first_place();
    let mut at = 0;
    while at < count && at < shape.rank {
        let Some(amount) = amount(slots, shape.first, at) else {
            return Some(place);
        };
        let subscript = value_at(&m.values, count - 1 - at).num();
        let Some(later) = next(place, subscript, dim(m, amount)) else {
            return None;
        };
        place = later;
        at += 1;
    }
    Some(place)
}

/// The element at a place is taken in the place of its subscripts.
#[tactic(auto, using(crate::proofs::Subscripts::kept))]
fn take(m: &mut State, count: usize, array: Extent, place: Option<Place>)
    requires { length m.old.values.items < m.old.values.room }
    ensures { m.new ≡ took count array place m.old }
{
    match place {
        Some(place) => {
            let first = array.first.saturating_add(place.offset);
            let height = m.values.len();
            m.values.keep(height.saturating_sub(count));
            m.values.push(Item::Cells(Extent { first, size: 1 }));
        }
        None => m.fail(Kind::SubscriptCheck),
    }
}

/// An element of the array of a slot is taken by so many subscripts.
pub fn element(m: &mut State, unit: &UnitCode, slot: usize, count: usize)
    requires { length m.old.values.items < m.old.values.room }
    ensures { m.new ≡ did_array unit.now slot count m.old }
{
    let array = m.extent(slot);
    let shape = shape(&unit.slots, slot);
    let place = place(m, &unit.slots, shape, count);
    take(m, count, array, place);
}
