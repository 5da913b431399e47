// Cells with room for more.
ghost use Rattle.std.specs.Prelude.{◌≡◌, [], ◌∷◌, ◌++◌, length, take, IfOk, ◌+◌, ◌<◌, ◌≤◌, replicate};
ghost use Rattle.formula.specs.declared.value.Cell.TheVariants as cell;
ghost use Rattle.fort_model.specs.Storage.{contents, load, store, write};

use run_held::Held;
use std::alloc::{AllocError, Global};
use std::marker::Model;

/// Cells, counted from 0.
#[derive(Drop)]
pub struct Pile {
    items: Vec<Held>,
}

impl Model for Pile {
    ghost use Rattle.formula.specs.declared.value.Cell.{Cell};
    ghost use Rattle.std.specs.Vec.{vec_capacity};
    ghost use Rattle.run_rooms.specs.Roomy.{Roomy};

    ghost Value = { Roomy Cell };

    ghost view = { λ p. record { items = p.items.items; room = vec_capacity p.items } };
}

impl Pile {
    /// No cells, with room for so many.
    pub fn new(alloc: Global, room: usize) -> Result<Pile, AllocError>
        ensures { IfOk result (λ p. p ≡ record { items = []; room = room }) }
    {
        let items = Vec::with_capacity(alloc, room)?;
        Ok(Pile { items })
    }

    /// How many cells there are.
    pub fn len(&self) -> usize
        ensures { result ≡ length self.now.items }
    {
        self.items.len()
    }

    /// What a cell holds; nothing where there is none.
    pub fn load(&self, place: usize) -> Held
        ensures { result ≡ load self.now.items place }
    {
        match self.items.get(place) {
            Some(held) => *held,
            None => Held::undefined(),
        }
    }

    /// A cell gets a content, where there is one.
    pub fn store(&mut self, place: usize, content: Held)
        ensures { self.new ≡ record self.old { items = store self.old.items place content } }
    {
        if place < self.items.len() {
            self.items[place] = content;
        }
    }

    /// One more cell.
    pub fn push(&mut self, content: Held)
        requires { length self.old.items < self.old.room }
        ensures { self.new ≡ record self.old { items = self.old.items ++ content ∷ [] } }
    {
        self.items.push_reserved(content);
    }

    /// So many more cells, which hold nothing.
    pub fn extend(&mut self, count: usize)
        requires { length self.old.items + count ≤ self.old.room }
        ensures { self.new ≡ record self.old { items = self.old.items ++ replicate count cell.Undefined } }
    {
        for _ in 0..count {
            self.push(Held::undefined());
        }
    }

    /// What the cell so many behind a first one holds, where it is one of the first `base` cells;
    /// else nothing.
    #[tactic(auto, using(crate::proofs::Copies::early, crate::proofs::Copies::late))]
    fn early(&self, first: usize, offset: usize, base: usize) -> Held
        requires { base ≤ length self.now.items }
        ensures { result ≡ load (take base self.now.items) (first + offset) }
    {
        let place = first.saturating_add(offset);
        if place < base {
            self.load(place)
        } else {
            Held::undefined()
        }
    }

    /// Copies of so many neighbouring cells from a first one on, as they were when there were `base`
    /// cells.
    pub fn copied(&mut self, first: usize, size: usize, base: usize)
        requires base { base ≤ length self.old.items }
        requires room { length self.old.items + size ≤ self.old.room }
        ensures { self.new ≡ record self.old {
          items = self.old.items ++ contents
              (take base self.old.items) first size;
        } }
    {
        for offset in 0..size {
            let content = self.early(first, offset, base);
            self.push(content);
        }
    }

    /// What the cell so many behind a first one holds; nothing where there is none.
    fn load_behind(&self, first: usize, offset: usize) -> Held
        ensures { result ≡ load self.now.items (first + offset) }
    {
        match self.items.get(first.saturating_add(offset)) {
            Some(held) => *held,
            None => Held::undefined(),
        }
    }

    /// The cell so many behind a first one gets a content, where there is one.
    fn store_behind(&mut self, first: usize, offset: usize, content: Held)
        ensures { self.new ≡ record self.old { items = store self.old.items (first + offset) content } }
    {
        let place = first.saturating_add(offset);
        if place < self.items.len() {
            self.items[place] = content;
        }
    }

    /// Moves what neighbouring cells hold to other ones, which begin no later, the first one first.
    fn moved_down(&mut self, from: usize, to: usize, size: usize)
        requires { to ≤ from }
        ensures { self.new ≡ record self.old {
          items = write (contents self.old.items from size)
              to self.old.items;
        } }
    {
        for offset in 0..size {
            let content = self.load_behind(from, offset);
            self.store_behind(to, offset, content);
        }
    }

    /// Moves what neighbouring cells hold to other ones, which begin later, the last one first.
    fn moved_up(&mut self, from: usize, to: usize, size: usize)
        requires { from < to }
        ensures { self.new ≡ record self.old {
          items = write (contents self.old.items from size)
              to self.old.items;
        } }
    {
        for done in 0..size {
            let offset = size - 1 - done;
            let content = self.load_behind(from, offset);
            self.store_behind(to, offset, content);
        }
    }

    /// Moves what neighbouring cells hold to other ones.
    pub fn moved(&mut self, from: usize, to: usize, size: usize)
        ensures { self.new ≡ record self.old {
          items = write (contents self.old.items from size)
              to self.old.items;
        } }
    {
        if to <= from {
            self.moved_down(from, to, size);
        } else {
            self.moved_up(from, to, size);
        }
    }

    /// The first so many cells remain.
    pub fn keep(&mut self, count: usize)
        ensures { self.new ≡ record self.old { items = take count self.old.items } }
    {
        self.items.truncate(count);
    }
}
