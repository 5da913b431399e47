//! What a statement sets, and what a call passes bare to smashed dummies, added to a set of names.
#![tactic(auto)]

mod adding;
mod passing;
mod setting;

pub use adding::add;
pub use passing::add_actuals;
pub use setting::add_set;
