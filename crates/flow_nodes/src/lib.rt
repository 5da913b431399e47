//! The flow of a unit as a graph of nodes: the first statement on a cycle without a cut point, or ranks.
#![tactic(auto)]

mod cycles;
mod marking;
mod numbers;
mod rows;

pub use cycles::{Cycles, cycles_of};
