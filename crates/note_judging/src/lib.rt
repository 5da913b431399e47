//! The judgement of all notes of a deck, one after another.
#![tactic(auto)]

mod gathering;
mod judging;
mod noted;
mod seating;
mod stepping;

pub use judging::judged_notes;
pub use noted::Noted;
