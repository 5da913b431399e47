//! Laws of ways through graphs: the ways of a unit's graph are the paths of the unit.
#![tactic(auto)]

mod laws;

pub use laws::{ways_are_paths, ways_have_points};
