//! Elements of arrays and intrinsic functions along a path.
#![tactic(auto)]

mod functions;
mod subscripts;

pub use functions::{absolute, folded, modulo};
pub use subscripts::place_checked;
