//! The weights of statements along a path.
#![tactic(auto)]

mod choices;
mod course;
mod parameters;
mod statements;
mod turns;

pub use course::Course;
pub use statements::{Work, performed};
