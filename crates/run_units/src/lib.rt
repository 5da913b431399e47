//! The code of units, and of a deck.
#![tactic(auto)]

mod commons;
mod deck;
mod laws;
mod parts;
mod unit;

pub use deck::code_of_units;
pub use laws::parts_are_code;
