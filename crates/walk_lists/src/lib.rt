//! Lists of facts and of checks that a walk meets one after another.
#![tactic(auto)]

mod lists;

pub use lists::{check_all, take_all};
