//! Provers behind one interface: closed goals, and goals that stand among the hypotheses.
#![tactic(auto)]

mod asking;
mod closed;
mod laws;
mod prover;
mod subsumption;

pub use asking::close_all;
pub use closed::Ground;
pub use laws::{counts_rise, tests_mark, unclosed_are_enough};
pub use prover::Prover;
pub use subsumption::Subsumed;
