//! What is known of one unit of a program that is ready: its notes, the shapes of its arrays, and what
//! a FUNCTION leaves alone.
#![tactic(auto)]

mod laws;
mod notes;

pub use laws::{ready_functions_keep, ready_notes_fit, ready_shapes_are_good};
pub use notes::{input_of, output_of};
