//! What instructions do that lead elsewhere, and one test of a DO.
#![tactic(auto)]

mod begins;
mod choices;
mod jumping;
mod testing;

pub use jumping::{jumps_are_obeyed, leads, points_are_reached};
pub use testing::{rounds_are_taken, test};
