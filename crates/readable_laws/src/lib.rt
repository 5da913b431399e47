//! Laws of conditions: those of an accepted program can be read back from their text.
#![tactic(auto)]

mod laws;

pub use laws::{
    conditions_in_are_readable, small_conditions_are_readable, text_tells_conditions,
    unmarked_are_marks, unmarked_in_are_readable,
};
