//! Weights as far as a cap, and how a path's conditions and their weights are summed up by them.
#![tactic(auto)]

mod laws;
mod loads;
mod sums;

pub use laws::{capped_weights_are_weights, loads_are_those_of_parts};
pub use loads::Load;
pub use sums::{CAP, plus, sum_of};
