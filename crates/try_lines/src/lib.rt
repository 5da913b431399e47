//! What the TRY cards of a deck come to: conditions under assignments of values to their symbols.
#![tactic(auto)]

mod lemmas;
mod lines;
mod sheets;
mod terms;
mod verdict;

pub use lines::try_text;
pub use verdict::Verdict;
