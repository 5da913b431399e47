//! Calls: actuals are passed on, units are entered and left, and copies are written back.
#![tactic(auto)]

mod entering;
mod laws;
mod leaving;
mod manners;
mod passing;
mod referring;

pub use entering::enter;
pub use laws::{calls_are_obeyed, units_are_entered, units_are_left};
pub use leaving::leave;
pub use referring::refer;
