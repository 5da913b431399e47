//! Operands of expressions on a walk along a path.
#![tactic(auto)]

mod laws;
mod operand;

pub use laws::{operands_have_terms, operands_join, operands_stay};
pub use operand::{Operand, bare_names, terms_of};
