//! The walks along the paths of a unit, where each goes on from the front that it shares with the one before.
#![tactic(auto)]

mod backing;
mod choosing;
mod following;
mod front;
mod going;
mod marking;
mod starting;

pub use following::follow;
pub use front::{Front, Mark};
