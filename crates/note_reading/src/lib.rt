//! What a note says by its form, and the rules that it breaks by the names in it.
#![tactic(auto)]

mod breaking;
mod note_form;
mod reading;

pub use breaking::broken;
pub use note_form::NoteForm;
pub use reading::{Known, read_form};
