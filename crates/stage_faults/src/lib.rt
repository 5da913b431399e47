//! The first fault of a stage whose rules are broken at heads and at statements of units.
#![tactic(auto)]

mod laws;

pub use laws::{heads_ascend, stage_fault_is_least};
