// Faults among notes.
ghost use Rattle.note_laws.specs.Laws.{FaultsAreOfNotes};

/// The first fault among the notes of a deck breaks one of the rules 32 to 35. It is on the card of a
/// note; or on the head of a unit that lacks INPUT or OUTPUT, and then it breaks rule 33. It does
/// nothing.
pub fn faults_are_of_notes()
    ensures { FaultsAreOfNotes }
{}
