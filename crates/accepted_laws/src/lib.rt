//! Laws of accepted decks: soundness, and that what is accepted is one and has no fault.
#![tactic(auto)]

mod one;
mod sound;

pub use one::{accepted_are_one, accepted_have_no_fault, programs_are_one};
pub use sound::{accepted_conditions_are_exact, accepted_decks_are_correct};
