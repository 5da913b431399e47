// Starts of small units.
ghost use Rattle.run_start.specs.StartRows.{NamesAreKnown, ShapesAreJudged, DimensionsAreGiven, CellsAreCounted};

/// A unit or a name that is none, a name that is given twice, and a site of no call.
pub fn names_are_known()
    ensures { NamesAreKnown }
{}

/// Too many cells, cells of the other type, and a number out of range.
pub fn shapes_are_judged()
    ensures { ShapesAreJudged }
{}

/// Adjustable dimensions.
pub fn dimensions_are_given()
    ensures { DimensionsAreGiven }
{}

/// Too many cells in all.
pub fn cells_are_counted()
    ensures { CellsAreCounted }
{}
