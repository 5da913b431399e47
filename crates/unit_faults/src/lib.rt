//! The first of a unit's faults in a stage: on the least card, and there of the least number.
#![tactic(auto)]

mod first;

pub use first::sooner;
