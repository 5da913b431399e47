// What the number of paths through a graph is to its unit.
ghost use Rattle.path_count.specs.Counts.{PathsAreCounted};

/// Where the paths through the graph of a unit are too many together with those before, the unit has
/// too many paths; and where they are not, it has not. It does nothing.
pub fn paths_are_counted()
    ensures { PathsAreCounted }
{}
