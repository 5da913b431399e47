// What the cards of a deck hold.
use edge_io::List;

/// What a card is.
#[derive(Clone, Copy, Debug, PartialEq, Eq, Hash)]
pub enum CardKind {
    /// `C$` in columns 1 and 2.
    NoteCard,
    /// `C` or `*` in column 1 otherwise, or nothing but blanks.
    CommentCard,
    /// Any other with a mark in column 6.
    ContinuationCard,
    /// Any other.
    InitialCard,
}

/// A statement or a note, with the number of its first card, from 1.
#[derive(Debug, Drop, PartialEq, Eq, Hash)]
pub enum Entry {
    /// A statement: its label, 0 where it has none, and its text without blanks and in upper case.
    Statement {
        card: u32,
        label: u32,
        text: List<u8>,
    },
    /// A note: its text in upper case.
    Note {
        card: u32,
        text: List<u8>,
    },
}

/// The statements and notes of a deck in the order of their cards.
pub type Cards = List<Entry>;
