// Kinds and cards of the checks along the paths of small decks.
ghost use Rattle.fort_model.specs.CheckRows.{ChecksOfQuotients, ChecksOfSubscripts, ChecksOfLoop, ChecksOfTwice, ChecksOfNest, ChecksOfSign, ChecksOfPick, ChecksOfUpTo};

/// Divisors, quotients and negative numbers are checked where they stand.
pub fn checks_of_quotients()
    ensures { ChecksOfQuotients }
{}

/// Each subscript is checked against its dimension.
pub fn checks_of_subscripts()
    ensures { ChecksOfSubscripts }
{}

/// The three paths of a loop with an ASSERT.
pub fn checks_of_loop()
    ensures { ChecksOfLoop }
{}

/// The four paths of two DOs with one last statement.
pub fn checks_of_twice()
    ensures { ChecksOfTwice }
{}

/// The four paths of two loops, one in the other.
pub fn checks_of_nest()
    ensures { ChecksOfNest }
{}

/// The three paths of a block IF.
pub fn checks_of_sign()
    ensures { ChecksOfSign }
{}

/// A computed GO TO in both dialects.
pub fn checks_of_pick()
    ensures { ChecksOfPick }
{}

/// The four paths of a DO under 77.
pub fn checks_of_up_to()
    ensures { ChecksOfUpTo }
{}
