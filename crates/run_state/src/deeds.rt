// Small changes of a state.
ghost use Rattle.std.specs.Prelude.{◌≡◌, ◌<◌, ◌-◌, ◌^◌};
ghost use Rattle.run_state.specs.Deeds.{advanced, extent_at, failed, first_in, gone_to, lost, put_to_test};
ghost use Rattle.run_state.specs.Deeds.{no_cells, no_item};

use crate::machine::{Extent, Item, Stage, State};
use fort_syntax::Kind;
use run_held::Held;

/// No cells.
pub fn no_cells() -> Extent
    ensures { result ≡ no_cells }
{
    Extent { first: 0, size: 0 }
}

/// An undefined value.
pub fn no_item() -> Item
    ensures { result ≡ no_item }
{
    Item::Fresh(Held::undefined())
}

impl State {
    /// The cells of the name of a slot.
    pub fn extent(&self, slot: usize) -> Extent
        ensures { result ≡ extent_at self.now slot }
    {
        self.extents
            .item_behind(self.frame.extents, slot, no_cells())
    }

    /// Takes the next instruction.
    pub fn advance(&mut self)
        requires { self.old.frame.place < 2 ^ 64 - 1 }
        ensures { self.new ≡ advanced self.old }
    {
        self.frame.place += 1;
    }

    /// Goes on to a point.
    pub fn go_to(&mut self, point: usize)
        ensures { self.new ≡ gone_to point self.old }
    {
        self.stage = Stage::Between;
        self.frame.line = point;
        self.values.keep(self.frame.floor);
    }

    /// Puts DOs to the test at a card, from a place of the unit's table on.
    pub fn put_to_test(&mut self, card: usize, place: usize)
        ensures { self.new ≡ put_to_test card place self.old }
    {
        self.stage = Stage::Testing;
        self.frame.card = card;
        self.frame.place = place;
    }

    /// Errs at the frame's card.
    pub fn fail(&mut self, kind: Kind)
        ensures { self.new ≡ failed kind self.old }
    {
        self.stage = Stage::Erred(kind);
    }

    /// Goes on for ever.
    pub fn lose(&mut self)
        ensures { self.new ≡ lost self.old }
    {
        self.stage = Stage::Nowhere;
    }
}
