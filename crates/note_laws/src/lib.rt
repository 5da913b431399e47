//! Laws of notes: what holds of all that the notes of a well-formed deck say.
#![tactic(auto)]

mod faults;
mod fits;
mod order;
mod terms;

pub use faults::faults_are_of_notes;
pub use fits::notes_fit_units;
pub use order::{assert_cards_increase, assert_points_increase};
pub use terms::{
    bounds_are_small, definitions_are_readable, proofs_are_readable, terms_are_readable,
};
