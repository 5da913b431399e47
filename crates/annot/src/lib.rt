//! The notes of a deck: what they say all together, or the first fault among them.
#![tactic(auto)]

mod faults;
mod outcome;
mod reading;

pub use reading::notes;
