//! Types of expressions and forms of subscripts: the first fault of a deck by the rule on types.
#![tactic(auto)]

mod deck_types;
mod fitting;
mod subscripts;
mod typing;

pub use deck_types::deck_type_fault;
pub use fitting::{Check, all_plain_subscripts};
