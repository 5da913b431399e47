// Where a statement stands.
ghost use Rattle.std.specs.Prelude.{◌≡◌, ℕ, List, Option, slice_get};
ghost use Rattle.fort_model.specs.Graphs.{IsForkTo};
ghost use Rattle.fort_model.specs.declared.graph.Target.{Target as Goal};

use crate::flow::{UnitFlow, fork_at, target_at};
use fort_model::Target;
use walk_setting::Card;

/// Where a statement stands: in which unit, at which card and at which point; and where the flow
/// goes on from it.
#[derive(Drop)]
pub struct Standing<'a> {
    pub flow: &'a UnitFlow<'a>,
    pub card: u32,
    pub point: usize,
    pub target: Target,
}

impl<'a> Standing<'a> {
    /// Its card, at which checks are told.
    pub fn at_card(&self) -> Card<'a>
        ensures setting { result.setting.now ≡ self.now.flow.now.setting.now }
        ensures number { result.number ≡ self.now.card }
    {
        Card {
            setting: self.flow.setting,
            number: self.card,
        }
    }

    /// The same statement, where the flow goes on elsewhere.
    pub fn to(&self, target: Target) -> Standing<'a>
        ensures flow { result.flow.now ≡ self.now.flow.now }
        ensures card { result.card ≡ self.now.card }
        ensures point { result.point ≡ self.now.point }
        ensures target { result.target ≡ target }
    {
        Standing {
            flow: self.flow,
            card: self.card,
            point: self.point,
            target,
        }
    }

    /// Where the flow goes on by a choice, counted from 0, where it goes on with a fork.
    pub fn turn(&self, choice: usize) -> Option<Target>
        ensures { (tested : Option ℕ) (targets : List Goal)
            → IsForkTo self.now.flow.now.graph.now.forks self.now.target tested targets
            → result ≡ slice_get targets choice }
    {
        let Target::Fork(number) = self.target else {
            return None;
        };
        let Some(fork) = fork_at(self.flow.graph, number) else {
            return None;
        };
        target_at(fork.targets.as_slice(), choice)
    }
}
