//! The graphs of all units of a program, or its first fault by the rules on the flow, 29, 30 and 31.
#![tactic(auto)]

mod units;

pub use units::graphs;
