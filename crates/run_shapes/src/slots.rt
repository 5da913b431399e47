// The slots of a unit.
use edge_io::List;
use fort_syntax::Name;

/// A dimension or a parameter of a DO: a constant, or what the first cell of the name of a slot holds.
#[derive(Clone, Copy, Debug)]
pub enum Amount {
    Fixed(u64),
    Named(usize),
}

/// Where the dimensions of a name stand among those of its unit, and how many it has.
#[derive(Clone, Copy, Debug)]
pub struct Shape {
    pub first: usize,
    pub rank: usize,
}

/// The data names of a unit by their slots: the dummies in order, then the names that get new cells
/// at each entry, then the COMMON entities.
#[derive(Drop)]
pub struct Slots {
    pub names: List<Name>,
    /// How many dummies there are.
    pub dummies: usize,
    /// How many names get new cells.
    pub own: usize,
    /// For each slot the dimensions of its name.
    pub shapes: List<Shape>,
    /// The dimensions of all names.
    pub sizes: List<Amount>,
}
