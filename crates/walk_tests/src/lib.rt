//! The tests of DOs behind statements, along a path.
#![tactic(auto)]

mod rounds;
mod testing;

pub use testing::{behind, tests_from};
