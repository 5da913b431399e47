//! The code of the statements of a unit, one behind the other.
#![tactic(auto)]

mod laws;
mod maker;
mod making;
mod spots;

pub use laws::{lines_are_code, lines_have_slots};
pub use maker::Maker;
pub use making::Made;
