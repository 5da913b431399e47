//! The names of a caller that a call smashes.
#![tactic(auto)]

mod hits;

pub use hits::call_hits;
