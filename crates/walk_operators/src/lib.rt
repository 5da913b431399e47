//! Operators, and operands that are read, along a path.
#![tactic(auto)]

mod elements;
mod leaves;
mod operators;
mod relations;

pub use elements::element_at;
pub use leaves::{constant_of, name_of, truth_of};
pub use operators::{Binary, Unary, binary_value, read_operand, unary_value};
pub use relations::Test;
