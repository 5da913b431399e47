//! How many statements the units of a deck have.
#![tactic(auto)]

mod laws;

pub use laws::decks_are_short;
