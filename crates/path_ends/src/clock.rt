// The clock of a start, and the last point of a path.
use formula::TermId;

/// The parts of the clock at the ASSERT where a path started.
#[derive(Drop)]
pub struct Clock {
    pub parts: Vec<TermId>,
}

/// Where a path ends: the point, and the card of its last statement.
#[derive(Clone, Copy, Debug)]
pub struct Last {
    pub point: usize,
    pub card: u32,
}
