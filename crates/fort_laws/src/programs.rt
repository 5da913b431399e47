// Programs.
ghost use Rattle.fort_laws.specs.CorrectPrograms.{ProgramsAreCorrect};
ghost use Rattle.fort_laws.specs.StrictPrograms.{StrictProgramsAreCorrect};

/// Soundness on strict processors. Let a program keep the rules, its declarations be in order, its
/// units be ready, and an exact list of its conditions be valid. Then each unit, on each strict
/// processor of the dialect that meets the bound, whichever arguments pass by copy, from each storage
/// that fits, where smashed names lie apart and INPUT is met, ends without error in some number of
/// steps, and its OUTPUT is met. It does nothing.
pub fn strict_programs_are_correct()
    ensures { StrictProgramsAreCorrect }
{}

/// Soundness. Let a program keep the rules, its declarations be in order, its units be ready, and an
/// exact list of its conditions be valid. Then it is totally correct, on strict and on lazy
/// processors. It does nothing.
pub fn programs_are_correct()
    ensures { ProgramsAreCorrect }
{}
