// What event text is read as.
use edge_io::List;
use event_text::Marks;
use formula::Definitions;
use fort_syntax::Condition;
use thiserror::Error;

/// Definitions, conditions whose terms use them, and what is known of the conditions.
#[derive(Drop)]
pub struct Events {
    pub definitions: Definitions,
    pub conditions: List<Condition>,
    pub marks: Marks,
}

/// Why a text is not read as definitions, conditions and marks.
#[derive(Clone, Copy, Debug, PartialEq, Eq, Error)]
pub enum EventFault {
    /// The text is not what is written of any that can be read back. Its longest prefix of whole
    /// lines that the closing line makes such a text has so many bytes.
    #[error("BadEvent")]
    BadEvent { at: usize },
    /// Memory was wanted and not had.
    #[error("NoMemory")]
    NoMemory,
}
