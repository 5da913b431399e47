//! Cells of a run, in sixteen bytes each, and what operators make of them.
#![tactic(auto)]

mod held;
mod sums;

pub use held::Held;
pub use sums::{compared, constant, negated, operated, power, ranged, sums_are_exact};
