//! What the notes of a deck become: assertions, runs, assignments to conditions, and certificates.
#![tactic(auto)]

mod cases;
mod certificates;
mod notes;
mod plain;
mod rows;

pub use cases::{Given, Passing, RunCard, Site, TryCard};
pub use certificates::{ProofCard, Step};
pub use notes::{AssertSpec, Specs, UnitSpec};
pub use rows::{notes_around_units, notes_at_fault, notes_of_a_unit};
