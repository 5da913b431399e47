//! Facts and checks of statements along a path, and parameters of DOs.
#![tactic(auto)]

mod facts;
mod parameters;
mod selectors;

pub use facts::{take_at_most, take_equals, take_less, take_not, take_true};
pub use parameters::{parameter, read_name, step_value};
pub use selectors::{check_label, check_result};
