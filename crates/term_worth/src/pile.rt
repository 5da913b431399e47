// Items that are put and taken at the end.
ghost use Rattle.std.specs.Prelude.{◌≡◌, [], ◌∷◌, ◌++◌, length, take, OnOk};

use edge_io::NoMemory;
use std::alloc::Global;
use std::marker::Model;

/// Items, which contracts see as a list from the oldest to the newest.
#[derive(Drop)]
pub struct Pile<X> {
    items: Vec<X>,
}

impl<X> Model for Pile<X> {
    ghost use Rattle.std.specs.Prelude.{List};
    ghost use Rattle.std.specs.Coded.{coded_list};

    ghost Value = { List X };

    ghost coded = { coded_list X.code };

    ghost view = { λ p. p.items.items };
}

impl<X: Drop> Pile<X> {
    /// No item.
    pub fn new(alloc: Global) -> Pile<X>
        ensures { result ≡ [] }
    {
        Pile {
            items: Vec::new(alloc),
        }
    }

    /// The items, in order.
    pub fn as_slice(&self) -> &[X]
        ensures { result.now ≡ self.now }
    {
        self.items.as_slice()
    }

    /// Puts an item at the end.
    #[inline(always)]
    pub fn push(&mut self, item: X) -> Result<(), NoMemory>
        ensures { OnOk result (self.new ≡ self.old ++ item ∷ []) }
    {
        let Ok(()) = self.items.push(item) else {
            return Err(NoMemory);
        };
        Ok(())
    }

    /// Takes memory for so many items more, and puts none.
    pub fn make_room(&mut self, count: usize) -> Result<(), NoMemory>
        ensures { OnOk result (self.new ≡ self.old) }
    {
        let Ok(()) = self.items.reserve(count) else {
            return Err(NoMemory);
        };
        Ok(())
    }

    /// Takes all but the first so many items away.
    pub fn keep(&mut self, count: usize)
        ensures { self.new ≡ take count self.old }
    {
        self.items.truncate(count);
    }
}
