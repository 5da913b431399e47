//! Tests of the actuals of one call, by the names that the called unit smashes.
#![tactic(auto)]

mod names;
mod passed;
mod twice;

pub use names::names_in;
pub use passed::passes_no_name;
pub use twice::passes_twice;
