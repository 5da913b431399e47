//! The DOs of a unit by their last statements.
#![tactic(auto)]

mod found;
mod loops;

pub use loops::{Loops, points_before};
