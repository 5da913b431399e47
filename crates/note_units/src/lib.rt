//! What the notes of a deck become, each where it belongs.
#![tactic(auto)]

mod lists;
mod own_notes;
mod placing;
mod sorted;
mod sorting;

pub use sorting::specs_of;
