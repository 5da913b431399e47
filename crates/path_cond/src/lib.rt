//! The conditions of a program.
#![tactic(auto)]

mod along;
mod found;
mod units;
mod walked;
mod whole;

pub use found::Conditions;
pub use whole::conditions;
