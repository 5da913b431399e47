// Steps with room for more.
ghost use Rattle.std.specs.Prelude.{◌≡◌, ◌<◌, ◌↔◌, [], ◌∷◌, ◌++◌, length, IfOk, IsTrue, MatchOption};

use crate::step::Step;
use edge_io::NoMemory;
use std::alloc::Global;
use std::marker::Model;

/// Steps in order. It takes memory only when it is made.
#[derive(Drop)]
pub(crate) struct Trail {
    steps: Vec<Step>,
}

impl Model for Trail {
    ghost use Rattle.std.specs.Vec.{vec_capacity};
    ghost use Rattle.path_cut.specs.Rooms.{Roomy};

    ghost Value = { Roomy };

    ghost view = { λ t. record { items = t.steps.items; room = vec_capacity t.steps } };
}

impl Trail {
    /// No steps, with room for so many.
    pub(crate) fn new(alloc: Global, room: usize) -> Result<Trail, NoMemory>
        ensures { IfOk result (λ t. t ≡ record { items = []; room = room }) }
    {
        let Ok(steps) = Vec::with_capacity(alloc, room) else {
            return Err(NoMemory);
        };
        Ok(Trail { steps })
    }

    /// The steps.
    pub(crate) fn as_slice(&self) -> &[Step]
        ensures { result.now ≡ self.now.items }
    {
        self.steps.as_slice()
    }

    /// How many steps there are.
    pub(crate) fn len(&self) -> usize
        ensures { result ≡ length self.now.items }
    {
        self.steps.len()
    }

    /// Whether there is room for one more.
    pub(crate) fn has_room(&self) -> bool
        ensures { IsTrue result ↔ (length self.now.items < self.now.room) }
    {
        self.steps.len() < self.steps.capacity()
    }

    /// One step more.
    pub(crate) fn push(&mut self, step: Step)
        requires { length self.old.items < self.old.room }
        ensures { self.new ≡ record self.old { items = self.old.items ++ step ∷ [] } }
    {
        self.steps.push_reserved(step);
    }

    /// Takes the last step.
    pub(crate) fn pop(&mut self) -> Option<Step>
        ensures { MatchOption result ((self.old.items ≡ []) × (self.new ≡ self.old))
            (λ x. self.old ≡ record self.new { items = self.new.items ++ x ∷ [] }) }
    {
        self.steps.pop()
    }
}
