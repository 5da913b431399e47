// Cases that a deck asks for: runs of units, and assignments to conditions.
use edge_io::List;
use formula::{Cell, Value, Word};
use fort_syntax::Name;

/// A place of an argument: the unit that calls, the number of the call in the unit's text, and the
/// number of the argument. CALLs and references count alike, from 1, and so do arguments.
#[derive(Clone, Copy, Debug)]
pub struct Site {
    pub unit: Name,
    pub call: u64,
    pub place: u64,
}

/// How arguments are passed that may be passed in either way.
#[derive(Debug, Drop)]
pub enum Passing {
    /// By reference at all places.
    Reference,
    /// By copy at all places.
    Copy,
    /// By copy at these places, and by reference elsewhere.
    Listed(List<Site>),
}

/// The cells that a name of the unit has at the start.
#[derive(Debug, Drop)]
pub struct Given {
    pub name: Word,
    pub cells: List<Cell>,
}

/// A run of a unit: the least and the greatest integer of the processor, whether it is lazy, how it
/// passes arguments, how many steps it may take, and what the unit's names have at the start.
#[derive(Debug, Drop)]
pub struct RunCard {
    pub unit: Name,
    pub least: i64,
    pub greatest: i64,
    pub lazy: bool,
    pub passing: Passing,
    pub steps: u64,
    pub start: List<Given>,
}

/// Values of symbols under which the condition of a name is to be tried.
#[derive(Debug, Drop)]
pub struct TryCard {
    pub lemma: Word,
    pub sheet: List<(Word, Value)>,
}
