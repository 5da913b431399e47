// Decks: subprograms, and notes with their places.
use crate::Unit;
use edge_io::List;

/// A note and where it stands.
#[derive(Debug, Drop, PartialEq, Eq, Hash)]
pub struct Placed {
    /// The note's first card.
    pub card: u32,
    /// Its text in upper case.
    pub text: List<u8>,
    /// The number, from 1, of the unit that it stands in; 0 where it stands in none.
    pub unit: u32,
    /// In a unit, how many executable statements of the unit stand before it. Outside the units, 0
    /// before the first head and 1 after an END.
    pub line: u32,
}

/// The units of a deck in order, and its notes in order.
#[derive(Debug, Drop, PartialEq, Eq, Hash)]
pub struct Deck {
    pub units: List<Unit>,
    pub notes: List<Placed>,
}
