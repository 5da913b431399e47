// The flow of a unit as a graph.
use edge_io::List;

/// Where the flow goes on: at a statement, counted from 0, or with a fork, counted from 0. The
/// number of statements stands for the end of the unit.
#[derive(Clone, Copy, Debug)]
pub enum Target {
    Point(u32),
    Fork(u32),
}

/// A choice: the first goes on at the first of the targets, and so on. Where it is the test of a DO
/// behind its last statement, `tested` is the point of that DO; the choices are to go round again
/// and to leave.
#[derive(Debug, Drop)]
pub struct Fork {
    pub tested: Option<u32>,
    pub targets: List<Target>,
}

/// The flow of a unit. A statement leads to its target in `starts`, by as many choices as there are
/// forks on the way. The tests of DOs with one last statement are forks that stand once.
#[derive(Debug, Drop)]
pub struct Graph {
    /// For each statement what it leads to.
    pub starts: List<Target>,
    /// The forks; each leads to lesser ones alone.
    pub forks: List<Fork>,
    /// The points of the ASSERTs, in the order of the cards.
    pub cuts: List<u32>,
    /// For each statement a number. It grows along each edge to a statement without an ASSERT.
    pub ranks: List<u32>,
    /// The number of statements.
    pub size: u32,
}
