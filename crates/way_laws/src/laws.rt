// What the ways of a graph are to its unit.
ghost use Rattle.way_laws.specs.Laws.{WaysArePaths, WaysHavePoints};

/// The ways through the graph of a unit, as choices at each statement, are the paths of the unit in
/// order. It does nothing.
pub fn ways_are_paths()
    ensures { WaysArePaths }
{}

/// The points of the statements of a way, and the one that ends it, are those that its path leads
/// through. It does nothing.
pub fn ways_have_points()
    ensures { WaysHavePoints }
{}
