//! Whether the flow of a unit goes on behind its last statement.
#![tactic(auto)]

mod ends;

pub use ends::off_end;
