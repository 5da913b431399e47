//! Cells and stacks that take memory only when they are made.
#![tactic(auto)]

mod piles;
mod stacks;

pub use piles::Pile;
pub use stacks::Stack;
