//! Laws of paths: units without uncut cycles have lists of their paths.
#![tactic(auto)]

mod exist;

pub use exist::{all_paths_exist, conditions_are_one, paths_exist};
