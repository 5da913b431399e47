//! The slots of the names of a unit, found by name.
#![tactic(auto)]

mod names;
mod slot_table;

pub use names::names_of_slots;
pub use slot_table::SlotTable;
