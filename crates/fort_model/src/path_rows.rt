// Paths of small decks.
ghost use Rattle.fort_model.specs.PathRows.{PathsOfLoop, PathsAscend, PathsOfTwice};

/// The three paths of a loop.
pub fn paths_of_loop()
    ensures { PathsOfLoop }
{}

/// Paths stand in the order of their starts, then of their choices.
pub fn paths_ascend()
    ensures { PathsAscend }
{}

/// The four paths of two DOs with one last statement.
pub fn paths_of_twice()
    ensures { PathsOfTwice }
{}
