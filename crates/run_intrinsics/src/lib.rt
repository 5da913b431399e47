//! Intrinsic functions of one and two numbers, and the numbers of a DO.
#![tactic(auto)]

mod functions;
mod loops;

pub use functions::{absolute, greater, intrinsics_are_exact, modulo, smaller};
pub use loops::{begun, starts_are_exact, summed};
