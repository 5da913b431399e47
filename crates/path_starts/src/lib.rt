//! The start of a path: what names stand for there, and what holds.
#![tactic(auto)]

mod entries;
mod entry;
mod facts;
mod notes;
mod start;

pub use entries::begin;
pub use entry::take_entry;
pub use start::start_at;
