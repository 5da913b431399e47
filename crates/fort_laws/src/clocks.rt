// Clocks.
ghost use Rattle.fort_laws.specs.Clocks.{ClocksFallOnlySoOften};

/// A clock of so many parts, none of them negative, can fall only so often: no chain of such
/// clocks, each lexicographically below the one before, goes on for ever. It does nothing.
pub fn clocks_fall_only_so_often()
    ensures { ClocksFallOnlySoOften }
{}
