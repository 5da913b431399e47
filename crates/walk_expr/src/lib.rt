//! Expressions along a path.
#![tactic(auto)]

mod expressions;

pub use expressions::{operand, operands, value, values};
