//! A CALL, or a reference to a FUNCTION, on a walk along a path.
#![tactic(auto)]

mod calls;

pub use calls::{call, refer};
