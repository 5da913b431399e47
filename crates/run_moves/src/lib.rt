//! What one instruction does, as a function, and that it is exact.
#![tactic(auto)]

ghost use Rattle.run_moves.specs.Moves.{MovesAreExact, TestsAreExact};

/// An instruction before other code does what `moved` says, with any stock of steps. It does
/// nothing.
pub fn moves_are_exact()
    ensures { MovesAreExact }
{}

/// The test of a DO takes a step, and then does what `tested` says. It does nothing.
pub fn tests_are_exact()
    ensures { TestsAreExact }
{}
