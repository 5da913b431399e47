//! The table of smashed names: which names of its own each unit of a deck smashes, found unit after unit in the order of calls.
#![tactic(auto)]

mod calls;
mod rows;
mod sites;
mod unit_set;
mod units;

pub use calls::has_common;
pub use unit_set::UnitSet;
pub use units::smash_table;
