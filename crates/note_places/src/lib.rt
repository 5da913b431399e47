//! The first words of notes: what they are, and where notes with them stand.
#![tactic(auto)]

mod assert_places;
mod first_words;
mod missing;
mod unit_set;

pub use assert_places::AssertPlaces;
pub use first_words::{
    NoteWord, begins_with_assert, begins_with_input, begins_with_output, note_word,
};
pub use missing::missing_note;
pub use unit_set::UnitSet;
