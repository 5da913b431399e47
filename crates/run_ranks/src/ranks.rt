// What runs of units need.
use edge_io::List;

/// What the run of a unit needs, with all that it calls.
#[derive(Drop)]
pub struct UnitRank {
    /// How many cells each of its own names has, and how many these are.
    pub own: List<usize>,
    pub cells: usize,
    /// How many names it has, and how many instructions its longest statement.
    pub slots: usize,
    pub long: usize,
    /// How many frames wait at most above its own, how high the stack gets and how many extents there are.
    pub frames: usize,
    pub values: usize,
    pub names: usize,
    /// How many cells there are of own names, and how many dummies.
    pub plain: usize,
    pub copies: usize,
}

/// What the runs of all units need.
#[derive(Drop)]
pub struct Ranks {
    pub units: List<UnitRank>,
}
