//! The entries of a deck, statements and notes, as they are read one by one.
#![tactic(auto)]

mod laws;
mod reading;
mod spot;

pub use laws::{deck_or_first_fault, decks_are_one, first_faults_are_one};
pub use reading::{Reading, read};
pub use spot::Spot;
