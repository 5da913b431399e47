// The code of a unit by its parts.
ghost use Rattle.run_units.specs.Joined.{PartsAreCode};

use run_made::{lines_are_code, lines_have_slots};

/// The parts of the code of a well-formed unit together are its code. It does nothing.
pub fn parts_are_code()
    ensures { PartsAreCode }
{
    lines_are_code();
    lines_have_slots();
}
