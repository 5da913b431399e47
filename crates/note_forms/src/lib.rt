//! The forms of notes: what stands behind the first word of each.
#![tactic(auto)]

mod assertions;
mod bounds;
mod definitions;
mod note_form;
mod proof_cards;
mod run_cards;
mod steps;
mod try_cards;

pub use assertions::{asserted, terms};
pub use bounds::bound;
pub use definitions::{counting_definition, plain_definition};
pub use note_form::Asserted;
pub use proof_cards::proof_card;
pub use run_cards::run_card;
pub use try_cards::try_card;
