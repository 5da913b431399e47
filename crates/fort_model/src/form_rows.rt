// Worked runs of single forms.
ghost use Rattle.fort_model.specs.FormRows.{PowersAreProducts, IntrinsicFunctions, SignsChoose, BlocksNest, LoopsCountBySteps, PassedOverLoops, ArraysArePassedWhole, CallsAreNumberedByTheText};

/// A power is a product from the left, of which each part must be in range.
pub fn powers_are_products()
    ensures { PowersAreProducts }
{}

/// The intrinsic functions and their errors.
pub fn intrinsic_functions()
    ensures { IntrinsicFunctions }
{}

/// An arithmetic IF goes on by the sign of its value.
pub fn signs_choose()
    ensures { SignsChoose }
{}

/// A block IF may stand in a block of another.
pub fn blocks_nest()
    ensures { BlocksNest }
{}

/// A DO adds its step until its variable would be beyond the last value.
pub fn loops_count_by_steps()
    ensures { LoopsCountBySteps }
{}

/// An inner DO that is not entered goes on with the test of the outer one that ends with it.
pub fn passed_over_loops()
    ensures { PassedOverLoops }
{}

/// An array is passed with all its cells.
pub fn arrays_are_passed_whole()
    ensures { ArraysArePassedWhole }
{}

/// Calls are made in the order of evaluation, and numbered in the order of the text.
pub fn calls_are_numbered_by_the_text()
    ensures { CallsAreNumberedByTheText }
{}
