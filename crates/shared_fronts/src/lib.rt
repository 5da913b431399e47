//! The statements that ways share which begin with the same steps. No code: laws.
#![tactic(auto)]

mod laws;

pub use laws::{firsts_are_shared, firsts_go_before};
