// Rows with room for more.
ghost use Rattle.std.specs.Prelude.{◌≡◌, [], ◌∷◌, ◌++◌, ◌+◌, length, take, IfOk, slice_index_or, ◌<◌};

use std::alloc::{AllocError, Global};
use std::marker::Model;

/// Items, counted from 0.
#[derive(Drop)]
pub struct Row<X> {
    items: Vec<X>,
}

impl<X> Model for Row<X> {
    ghost use Rattle.std.specs.Vec.{vec_capacity};
    ghost use Rattle.run_rooms.specs.Roomy.{Roomy, coded_roomy};

    ghost Value = { Roomy X };

    ghost coded = { coded_roomy X.code };

    ghost view = { λ p. record { items = p.items.items; room = vec_capacity p.items } };
}

impl<X: Copy + Drop> Row<X> {
    /// No items, with room for so many.
    pub fn new(alloc: Global, room: usize) -> Result<Row<X>, AllocError>
        ensures { IfOk result (λ p. p ≡ record { items = []; room = room }) }
    {
        let items = Vec::with_capacity(alloc, room)?;
        Ok(Row { items })
    }

    /// How many items there are.
    pub fn len(&self) -> usize
        ensures { result ≡ length self.now.items }
    {
        self.items.len()
    }

    /// The item at a place; the other one where there is none.
    pub fn item_or(&self, place: usize, other: X) -> X
        ensures { result ≡ slice_index_or self.now.items place other }
    {
        match self.items.get(place) {
            Some(item) => *item,
            None => other,
        }
    }

    /// The item so many behind another place; the other one where there is none.
    pub fn item_behind(&self, place: usize, offset: usize, other: X) -> X
        ensures { result ≡ slice_index_or self.now.items (place + offset) other }
    {
        match self.items.get(place.saturating_add(offset)) {
            Some(item) => *item,
            None => other,
        }
    }

    /// One more item.
    pub fn push(&mut self, item: X)
        requires { length self.old.items < self.old.room }
        ensures { self.new ≡ record self.old { items = self.old.items ++ item ∷ [] } }
    {
        self.items.push_reserved(item);
    }

    /// The first so many items remain.
    pub fn keep(&mut self, count: usize)
        ensures { self.new ≡ record self.old { items = take count self.old.items } }
    {
        self.items.truncate(count);
    }
}
