//! The judgement of a text: its conditions, or its first fault.
#![tactic(auto)]

mod deck;
mod findings;
mod found;
mod noted;
mod notes_found;
mod scene;
mod smashed;
mod text;

pub use found::Judged;
pub use text::judged;
