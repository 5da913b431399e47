// Laws of the units of a program that is ready.
ghost use Rattle.unit_notes.specs.Laws.{ReadyFunctionsKeep, ReadyNotesFit, ReadyShapesAreGood};

/// The notes of each unit fit it. It does nothing.
pub fn ready_notes_fit()
    ensures { ReadyNotesFit }
{}

/// No dimension of an array is 0, and no array has too many elements. It does nothing.
pub fn ready_shapes_are_good()
    ensures { ReadyShapesAreGood }
{}

/// A reference to a FUNCTION smashes no name of its caller. It does nothing.
pub fn ready_functions_keep()
    ensures { ReadyFunctionsKeep }
{}
