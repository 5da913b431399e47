//! Laws of decks: what holds of every deck that breaks no rule.
#![tactic(auto)]

mod entries;
mod unit_faults;
mod well_formed;

pub use entries::entries_ascend;
pub use unit_faults::first_unit_fault_is_least;
pub use well_formed::decks_without_fault_are_well_formed;
