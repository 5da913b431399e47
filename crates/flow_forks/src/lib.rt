//! The flow of a unit: where each statement leads, and the forks on the way.
#![tactic(auto)]

mod whole;

pub use whole::{Flow, flow_of};
