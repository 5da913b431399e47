//! Uses of names and labels in the units of a deck: what each name is, and the first fault of a deck by the rules on uses.
#![tactic(auto)]

mod deck_uses;
mod roles;
mod use_rules;
mod used;

pub use deck_uses::deck_use_fault;
pub use roles::roles_of;
pub use use_rules::{Roles, is_own};
