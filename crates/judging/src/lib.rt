//! The judgement of a text, and its laws.
#![tactic(auto)]

mod accepting;
mod decks;
mod refusing;

pub use accepting::{accepted_in_are_one, accepted_in_are_sound, kept_are_accepted, kept_are_one};
pub use decks::{assert_points_increase_in, decks_in_are_well_formed};
pub use refusing::{accepted_in_have_no_fault, faults_in_are_one, kept_have_no_fault};
