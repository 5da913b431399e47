// Values on the stack.
ghost use Rattle.std.specs.Prelude.{◌≡◌, Result};
ghost use Rattle.run_state.specs.Deeds.{first_in, under_in, value_in};
ghost use Rattle.run_elements.specs.Elements.{read_to, value_to};

use fort_syntax::Kind;
use run_held::Held;
use run_rooms::{Pile, Stack};
use run_state::{Item, no_item};

/// The value of an item that was read.
pub fn value_in(item: &Item) -> Held
    ensures { result ≡ value_in item.now }
{
    match item {
        Item::Fresh(held) => *held,
        Item::Cells(_) => Held::undefined(),
    }
}

/// The value so many below the newest.
#[tactic(auto, using(crate::proofs::Depths::item_at))]
pub fn value_at(values: &Stack<Item>, depth: usize) -> Held
    ensures { result ≡ value_in (first_in (under_in depth values.now.items)) }
{
    value_in(&values.below_or(depth, no_item()))
}

/// What a cell holds, which must be defined.
pub fn read(cells: &Pile, place: usize) -> Result<Held, Kind>
    ensures { result ≡ read_to cells.now.items place }
{
    let held = cells.load(place);
    if held.is_defined() {
        Ok(held)
    } else {
        Err(Kind::DefinedCheck)
    }
}

/// What was taken is read for its value.
pub fn valued(cells: &Pile, item: &Item) -> Result<Held, Kind>
    ensures { result ≡ value_to cells.now.items item.now }
{
    match item {
        Item::Fresh(held) => Ok(*held),
        Item::Cells(extent) => read(cells, extent.first),
    }
}
