//! Laws of weights.
#![tactic(auto)]

mod laws;

pub use laws::weights_have_checks;
