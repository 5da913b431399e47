//! The points that labels and block IFs lead to in a unit.
#![tactic(auto)]

mod labels;
mod parts;
mod scan;
mod turns;

pub use labels::Labels;
pub use parts::Part;
pub use turns::{Turns, turns_of};
