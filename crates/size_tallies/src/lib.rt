//! The sizes of units and of programs, by tallies along the ways of graphs.
#![tactic(auto)]

mod laws;

pub use laws::{sizes_are_tallied, units_are_judged, units_follow};
