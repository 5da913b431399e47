//! Which units have a flow.
#![tactic(auto)]

mod laws;

pub use laws::units_flow;
