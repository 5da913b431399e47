//! Cards: from the bytes of a deck to its statements and notes.
#![tactic(auto)]

mod advance;
mod begin;
mod columns;
mod deck;
mod held;
mod label;
mod least_fault;
mod reading;
mod rules;
mod text;

pub use deck::cards;
pub use least_fault::first_card_fault_is_least;
