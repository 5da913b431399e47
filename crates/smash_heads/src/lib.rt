//! Rules 45 and 49: a FUNCTION smashes what its caller sees; a unit smashes a dimension of one of its arrays.
#![tactic(auto)]

mod dims;
mod functions;
mod heads;

pub use heads::head_rule;
