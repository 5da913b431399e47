//! The start of a walk along a path: at the entry of a unit, or at an ASSERT.
#![tactic(auto)]

mod opening;
mod setting_out;

pub use opening::{Begun, enter};
pub use setting_out::set_out;
