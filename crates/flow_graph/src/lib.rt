//! The graph of one unit of a program, or its first fault by the rules on the flow, 29, 30 and 31.
#![tactic(auto)]

mod early;
mod routes;
mod whole;

pub use whole::graph;
