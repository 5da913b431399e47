//! Statements along a path.
#![tactic(auto)]

mod statements;

pub use statements::performed;
