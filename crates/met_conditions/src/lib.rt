//! The conditions of what a walk along a path met.
#![tactic(auto)]

mod conditions;
mod laws;

pub use conditions::{Along, add_conditions};
pub use laws::{conditions_are_in, conditions_are_of_events};
