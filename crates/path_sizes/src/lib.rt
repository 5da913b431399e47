//! How large the conditions of a program are: counts of paths and conditions, and weights.
#![tactic(auto)]

mod laws;
mod rows;

pub use laws::{one_size_fault, sizes_are_judged};
pub use rows::{weights_of_calls, weights_of_inc, weights_of_loops, weights_of_powers};
