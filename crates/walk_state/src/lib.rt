//! Where a walk along a path is: what names stand for, what it met, and its calls.
#![tactic(auto)]

mod walk;

pub use walk::{Met, Walk};
