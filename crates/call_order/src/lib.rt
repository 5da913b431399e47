//! Which unit calls which, the first unit that calls itself, and the order in which each unit stands behind those that it calls.
#![tactic(auto)]

mod edges;
mod numbers;
mod orders;

pub use edges::{call_graph, callees_of};
pub use orders::{Ordered, Ordering, call_order};
