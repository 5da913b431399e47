//! Decks of a given size, made for tests of size.
#![tactic(auto)]

mod deck;
mod fault;

pub use deck::made;
pub use fault::MadeFault;
