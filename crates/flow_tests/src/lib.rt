//! The tests of DOs behind their last statements, as forks that stand once.
#![tactic(auto)]

mod chains;
mod forking;

pub use chains::{Chains, chains_of};
pub use forking::{put_fork, target_at, two};
