//! Units: from the statements of a deck to subprograms whose declarations are resolved.
#![tactic(auto)]

mod deck;
mod deck_faults;
mod deck_units;
mod unit_blocks;
mod unit_names;
mod unit_parts;

pub use deck::units;
pub use deck_faults::first_fault;
