//! The first fault of a stage over the units of a program, from that of each unit.
#![tactic(auto)]

mod laws;

pub use laws::first_of_units;
