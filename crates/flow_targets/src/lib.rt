//! The targets of statements: where each of them leads, by forks.
#![tactic(auto)]

mod known;
mod starts;
mod targets;

pub use known::Known;
pub use starts::target_of;
