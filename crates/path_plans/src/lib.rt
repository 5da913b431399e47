//! What the walks along all paths of a unit have in common.
#![tactic(auto)]

mod plan;

pub use plan::Plan;
