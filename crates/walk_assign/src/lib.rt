//! Assignments along a path.
#![tactic(auto)]

mod assignments;

pub use assignments::assign;
