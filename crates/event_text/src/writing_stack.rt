// The open brackets of a term that is being put.
ghost use Rattle.std.specs.Prelude.{◌≡◌, ◌≤◌, ◌<◌, [], ◌∷◌, length, MatchOption, IfOk};
ghost use Rattle.formula.specs.Pool.{trees};
ghost use Rattle.event_text.specs.Depths.{deepest};

use crate::bracket::Bracket;
use edge_io::NoMemory;
use formula::{TermId, TermPool};
use std::alloc::Global;
use std::marker::Model;

/// Open brackets, which contracts see from the innermost, with room for so many. Its room is
/// taken when it is made.
#[derive(Drop)]
pub struct WritingStack {
    brackets: Vec<Bracket>,
}

impl Model for WritingStack {
    ghost use Rattle.std.specs.Prelude.{reverse};
    ghost use Rattle.std.specs.Vec.{vec_capacity};
    ghost use Rattle.event_text.specs.Rests.{Rests};

    ghost Value = { Rests };

    ghost view = { λ t. record { room = vec_capacity t.brackets; brackets = reverse t.brackets.items } };
}

impl WritingStack {
    /// Room for the terms of a pool, as much as the deepest wants.
    pub fn new(alloc: Global, pool: &TermPool) -> Result<WritingStack, NoMemory>
        ensures { IfOk result (λ s. deepest (trees pool.now) ≤ s.room) }
    {
        let Ok(brackets) = Vec::with_capacity(alloc, deepest(pool)) else {
            return Err(NoMemory);
        };
        Ok(WritingStack { brackets })
    }

    /// Closes all.
    pub(crate) fn clear(&mut self)
        ensures brackets { self.new.brackets ≡ [] }
        ensures room { self.old.room ≤ self.new.room }
    {
        self.brackets.clear();
    }

    /// Opens a bracket. It takes no memory.
    pub(crate) fn open(&mut self, bracket: Bracket)
        requires { length self.old.brackets < self.old.room }
        ensures brackets { self.new.brackets ≡ bracket ∷ self.old.brackets }
        ensures room { self.old.room ≤ self.new.room }
    {
        let Ok(()) = self.brackets.push(bracket) else {
            unreachable!();
        };
    }

    /// Takes the innermost bracket.
    pub(crate) fn close(&mut self) -> Option<Bracket>
        ensures brackets { MatchOption result (self.old.brackets ≡ []) (λ b. self.old.brackets
            ≡ b ∷ self.new.brackets) }
        ensures room { self.old.room ≤ self.new.room }
    {
        self.brackets.pop()
    }
}

/// The greatest depth of a pool's terms.
fn deepest(pool: &TermPool) -> usize
    ensures { deepest (trees pool.now) ≤ result }
{
    let mut most = 0;
    for place in 0..pool.count() {
        let id = TermId {
            place: place as u32,
        };
        most = most.max(pool.depth(id));
    }
    most as usize
}
