//! The intrinsic functions along a path.
#![tactic(auto)]

mod functions;
mod words;

pub use functions::intrinsic_value;
pub use words::{Function, intrinsic_of};
