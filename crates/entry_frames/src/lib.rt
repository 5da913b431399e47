//! What the data names of a unit stand for at its entry.
#![tactic(auto)]

mod entry;
mod laws;

pub use entry::entry_names;
pub use laws::{entries_are_at_entry, well_formed_units_have_good_shapes};
