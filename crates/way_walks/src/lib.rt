//! The walk along the path of a way: from its steps to what is met.
#![tactic(auto)]

mod laws;

pub use laws::walks_go_along;
