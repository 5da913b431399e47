//! What the RUN cards of a deck come to, line by line.
#![tactic(auto)]

mod cells;
mod deck;
mod lines;
mod outcomes;
mod refusals;

pub use deck::{RunDeck, run_text};
