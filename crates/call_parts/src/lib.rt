//! The parts of a call on a walk along a path: the entry of the called unit, what it answers, and what
//! holds behind it.
#![tactic(auto)]

mod answers;
mod called;
mod entering;
mod leaving;

pub use answers::{smash_names, take_facts};
pub use called::Called;
pub use entering::enter_unit;
pub use leaving::leave_unit;
