//! The parameters of DOs, and the sums that they are tested by, along a path.
#![tactic(auto)]

mod loops;

pub use loops::{check_loop, check_step, next_sum};
