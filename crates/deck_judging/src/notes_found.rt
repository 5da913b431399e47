// What is found in the notes of a deck.
use formula::{Definitions, TermPool};
use fort_notes::Specs;

/// What the notes of a deck say, as terms of a pool.
#[derive(Drop)]
pub(crate) struct Noted {
    pub pool: TermPool,
    pub definitions: Definitions,
    pub specs: Specs,
}
