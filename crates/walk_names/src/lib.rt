//! What the names of a unit stand for along a path.
#![tactic(auto)]

mod names;

pub use names::{Logged, Names};
