// The state of a run, in numbers.
use crate::rows::Row;
use fort_model::Bounds;
use fort_notes::Passing;
use fort_syntax::Kind;
use run_held::Held;
use run_rooms::{Pile, Stack};

/// How a processor runs a deck, besides its dialect.
#[derive(Debug, Drop)]
pub struct Setting {
    pub bounds: Bounds,
    pub lazy: bool,
    pub passing: Passing,
}

/// Neighbouring cells: the first, and how many they are. A first cell that no memory has is the
/// greatest number.
#[derive(Clone, Copy, Debug)]
pub struct Extent {
    pub first: usize,
    pub size: usize,
}

/// What was taken: the cells of a name or an element, or a value.
#[derive(Clone, Copy, Debug)]
pub enum Item {
    Cells(Extent),
    Fresh(Held),
}

/// Where a run stands in the unit that is being run.
#[derive(Clone, Copy, Debug)]
pub enum Stage {
    /// Before its entry.
    Entering,
    /// Before a statement, or at its end.
    Between,
    /// Within a statement.
    Inside,
    /// Before a carried statement.
    Carried,
    /// Before tests of DOs.
    Testing,
    /// The first unit has ended, with this value.
    Ended(Held),
    /// An error, at the frame's card.
    Erred(Kind),
    /// What never ends.
    Nowhere,
}

/// A unit that is being run, or that waits for one that it called.
#[derive(Clone, Copy, Debug)]
pub struct Frame {
    /// The unit's number.
    pub unit: usize,
    /// The point of the statement.
    pub line: usize,
    /// The next instruction of the unit's, and where those of the statement stop. Where DOs are tested
    /// it is the next test of the unit's.
    pub place: usize,
    pub stop: usize,
    /// The card of the statement or of the tests.
    pub card: usize,
    /// Where the extents of its names begin.
    pub extents: usize,
    /// How many cells there were before its own.
    pub before: usize,
    /// How high the stack was at its entry.
    pub floor: usize,
    /// Of the call that it waits for: its number, its actuals, and how many cells there were.
    pub number: usize,
    pub actuals: usize,
    pub base: usize,
}

/// A run where it stands. Only its beginning takes memory.
#[derive(Drop)]
pub struct State {
    pub stage: Stage,
    pub frame: Frame,
    /// The frames that wait, the last caller first.
    pub callers: Stack<Frame>,
    /// What was taken.
    pub values: Stack<Item>,
    /// The cells of the COMMON entities, and then of each frame's names.
    pub extents: Row<Extent>,
    pub cells: Pile,
}
