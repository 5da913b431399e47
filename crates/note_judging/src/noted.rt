// A note that was judged.
use note_reading::NoteForm;

/// A note that was judged and is not at fault: the number of its unit, the number of its statement,
/// its card, and what it says.
#[derive(Debug, Drop)]
pub struct Noted {
    pub unit: u32,
    pub line: u32,
    pub card: u32,
    pub form: NoteForm,
}
