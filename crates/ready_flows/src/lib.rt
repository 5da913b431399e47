//! Each unit of a program that is ready for its flow has one.
#![tactic(auto)]

mod laws;

pub use laws::{ready_units_flow, ready_units_stand};
