//! The dimensions of the names of a unit, in slots.
#![tactic(auto)]

mod sizes;

pub use sizes::{Sizes, sizes_of_names};
