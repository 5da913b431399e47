// Stacks with room for more.
ghost use Rattle.std.specs.Prelude.{◌≡◌, [], ◌∷◌, length, IfOk, MatchOption, slice_index_or, ◌<◌};
ghost use Rattle.run_rooms.specs.Roomy.{first_or, behind, oldest};

use std::alloc::{AllocError, Global};
use std::marker::Model;

/// Items, the newest first.
#[derive(Drop)]
pub struct Stack<X> {
    items: Vec<X>,
}

impl<X> Model for Stack<X> {
    ghost use Rattle.std.specs.Prelude.{reverse};
    ghost use Rattle.std.specs.Vec.{vec_capacity};
    ghost use Rattle.run_rooms.specs.Roomy.{Roomy, coded_roomy};

    ghost Value = { Roomy X };

    ghost coded = { coded_roomy X.code };

    ghost view = { λ p. record { items = reverse p.items.items; room = vec_capacity p.items } };
}

impl<X: Copy + Drop> Stack<X> {
    /// No items, with room for so many.
    pub fn new(alloc: Global, room: usize) -> Result<Stack<X>, AllocError>
        ensures { IfOk result (λ p. p ≡ record { items = []; room = room }) }
    {
        let items = Vec::with_capacity(alloc, room)?;
        Ok(Stack { items })
    }

    /// How many items there are.
    pub fn len(&self) -> usize
        ensures { result ≡ length self.now.items }
    {
        self.items.len()
    }

    /// One more item.
    pub fn push(&mut self, item: X)
        requires { length self.old.items < self.old.room }
        ensures { self.new ≡ record self.old { items = item ∷ self.old.items } }
    {
        self.items.push_reserved(item);
    }

    /// The oldest so many items remain.
    #[tactic(auto, using(crate::proofs::Kept::kept))]
    pub fn keep(&mut self, count: usize)
        ensures { self.new ≡ record self.old { items = oldest count self.old.items } }
    {
        self.items.truncate(count);
    }

    /// Takes the newest item.
    pub fn pop(&mut self) -> Option<X>
        ensures { MatchOption result ((self.old.items ≡ []) × (self.new ≡ self.old))
            (λ x. self.old ≡ record self.new { items = x ∷ self.new.items }) }
    {
        self.items.pop()
    }

    /// Takes the newest item; the other one where there is none.
    pub fn pop_or(&mut self, other: X) -> X
        ensures value { result ≡ first_or other self.old.items }
        ensures rest { self.new ≡ record self.old { items = behind self.old.items } }
    {
        match self.pop() {
            Some(item) => item,
            None => other,
        }
    }

    /// The newest item; the other one where there is none.
    pub fn newest_or(&self, other: X) -> X
        ensures { result ≡ first_or other self.now.items }
    {
        match self.items.last() {
            Some(item) => *item,
            None => other,
        }
    }

    /// The item so many below the newest; the other one where there is none.
    #[tactic(auto, using(crate::proofs::Kept::below, crate::proofs::Kept::none_below))]
    pub fn below_or(&self, depth: usize, other: X) -> X
        ensures { result ≡ slice_index_or self.now.items depth other }
    {
        let count = self.items.len();
        if depth < count {
            self.items[count - 1 - depth]
        } else {
            other
        }
    }

    /// Lets the newest item go.
    pub fn drop_newest(&mut self)
        ensures { self.new ≡ record self.old { items = behind self.old.items } }
    {
        let _ = self.pop();
    }
}
