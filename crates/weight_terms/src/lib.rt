//! What names weigh along a path, and what terms of notes weigh by them, as far as the cap.
#![tactic(auto)]

mod log;
mod names;
mod notes;
mod terms;

pub use names::{NameWeights, Told};
pub use notes::{sum_terms, test_terms};
pub use terms::term_weight;
