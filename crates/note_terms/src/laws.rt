// When the names of notes are known.
ghost use Rattle.note_terms.specs.Laws.{FactsAreThoseOfWalks, FittingTermsAreKnown, StatedByNames};

/// The terms of notes that fit a unit are known where a table has all data names of the unit, and
/// entry terms for them. It does nothing.
pub fn fitting_terms_are_known()
    ensures { FittingTermsAreKnown }
{}

/// What is stated is a matter of what the names stand for, at the entry and now: not of the table
/// that tells it. It does nothing.
pub fn stated_by_names()
    ensures { StatedByNames }
{}

/// The facts on the bound, that clocks are not negative and that they fall are those of each walk in
/// the sense of terms. It does nothing.
pub fn facts_are_those_of_walks()
    ensures { FactsAreThoseOfWalks }
{}
