//! The calls of a deck: their order, what each unit smashes, and the rules on calls and on smashed names.
#![tactic(auto)]

mod facts;
mod smashing;
mod stages;

pub use stages::calls;
