// Texts that are accepted.
ghost use Rattle.judging.specs.Laws.{
  AcceptedInAreOne,
  AcceptedInAreSound,
  KeptAreAccepted,
  KeptAreOne,
};

/// Bytes that keep all rules but those on sizes are one deck with one program. It does nothing.
pub fn kept_are_one()
    ensures { KeptAreOne }
{}

/// They are accepted with some list of all paths, or have a fault of sizes. It does nothing.
pub fn kept_are_accepted()
    ensures { KeptAreAccepted }
{}

/// What bytes are accepted with is one list of paths, and so they have one list of conditions. It does nothing.
pub fn accepted_in_are_one()
    ensures { AcceptedInAreOne }
{}

/// The conditions of bytes that are accepted are exact, and where all of them are valid, the program
/// is totally correct. It does nothing.
pub fn accepted_in_are_sound()
    ensures { AcceptedInAreSound }
{}
