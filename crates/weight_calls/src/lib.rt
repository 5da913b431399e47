//! The weights of calls along a path.
#![tactic(auto)]

mod calls;
mod operands;
mod seen;
mod subject;
mod unit_notes;

pub use calls::{call, refer};
pub use operands::Operand;
pub use subject::Subject;
