// Worked runs of small decks.
ghost use Rattle.fort_model.specs.Rows.{IncTakesThreeSteps, QuotientsAreCut, SubscriptsKeepToTheirDimensions, FirstSubscriptVariesFastest, NinthPlaceOfFourDimensions, LoopsThatShareTheirEnd, RotatedInAnyManner, CommonByReferenceAndByCopy, ElementsAreWrittenBack, LocalsForget, FunctionsAnswerTheirValue, LazyLeavesOut, LoopsInBothDialects, ChoicesInBothDialects, OneBranchIsPerformed};

/// An assignment and a RETURN take three steps with the entry.
pub fn inc_takes_three_steps()
    ensures { IncTakesThreeSteps }
{}

/// Quotients are cut towards zero, and the quotient of the least integer and -1 is out of range.
pub fn quotients_are_cut()
    ensures { QuotientsAreCut }
{}

/// A subscript beyond its dimension is an error, also where the array has the place.
pub fn subscripts_keep_to_their_dimensions()
    ensures { SubscriptsKeepToTheirDimensions }
{}

/// An element of an array with adjustable dimensions has the place that its subscripts give.
pub fn first_subscript_varies_fastest()
    ensures { FirstSubscriptVariesFastest }
{}

/// An element of an array of four dimensions has the place that its subscripts give.
pub fn ninth_place_of_four_dimensions()
    ensures { NinthPlaceOfFourDimensions }
{}

/// Two DOs with one last statement end one after the other.
pub fn loops_that_share_their_end()
    ensures { LoopsThatShareTheirEnd }
{}

/// Two calls turn three values around, by reference, by copy, and with a mix of them.
pub fn rotated_in_any_manner()
    ensures { RotatedInAnyManner }
{}

/// A COMMON entity that is passed to a unit which sets it ends otherwise by reference than by copy.
pub fn common_by_reference_and_by_copy()
    ensures { CommonByReferenceAndByCopy }
{}

/// An element that is passed by copy is written back.
pub fn elements_are_written_back()
    ensures { ElementsAreWrittenBack }
{}

/// A local is undefined at each entry.
pub fn locals_forget()
    ensures { LocalsForget }
{}

/// A FUNCTION answers the value of its name, which must be defined where it returns.
pub fn functions_answer_their_value()
    ensures { FunctionsAnswerTheirValue }
{}

/// A lazy processor leaves out a right operand that a strict one reads.
pub fn lazy_leaves_out()
    ensures { LazyLeavesOut }
{}

/// A DO whose range is not entered, and what its variable is behind it.
pub fn loops_in_both_dialects()
    ensures { LoopsInBothDialects }
{}

/// A computed GO TO inside its list and outside.
pub fn choices_in_both_dialects()
    ensures { ChoicesInBothDialects }
{}

/// Of the branches of a block IF one is performed.
pub fn one_branch_is_performed()
    ensures { OneBranchIsPerformed }
{}
