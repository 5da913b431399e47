//! The weights of expressions along a path.
#![tactic(auto)]

mod expressions;
mod functions;
mod operations;

pub use expressions::{operands, value, values};
pub use functions::test_subscripts;
pub use operations::{constant, read};
