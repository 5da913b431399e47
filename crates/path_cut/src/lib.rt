//! The paths of a unit, one at a time, in order.
#![tactic(auto)]

mod course;
mod flow;
mod limits;
mod paths;
mod step;
mod trail;

pub use paths::{PathView, Paths};
pub use step::Step;
