//! Rules 41, 42, 43, 45 and 49: the first fault of a deck in what its calls smash.
#![tactic(auto)]

mod common;
mod faults;
mod sites;
mod statements;

pub use faults::smash_fault;
