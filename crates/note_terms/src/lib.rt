//! The terms of notes along a path: what INPUT, OUTPUT and ASSERTs say where names stand for terms.
#![tactic(auto)]

mod bounds;
mod clocks;
mod laws;
mod notes;

pub use bounds::bound_facts;
pub use clocks::{at_least_zero, fallen};
pub use laws::{facts_are_those_of_walks, fitting_terms_are_known, stated_by_names};
pub use notes::{note_term, note_terms};
