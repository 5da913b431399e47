// The laws of worth.
ghost use Rattle.formula.specs.WorthLaws.{AssignmentsSuffice, BoundedWorthIsWorth, TurnsAloneDecide, UsesMeanTheirTerms};

/// A use of a definition is worth its term for the arguments: a plain definition's own term, or of
/// a counting one the base where the number of the first argument is at most 0, else the step. All
/// uses in that term mean the same again, and only one meaning of all uses is so. It does nothing.
pub fn uses_mean_their_terms()
    ensures { UsesMeanTheirTerms }
{}

/// A value that an evaluation with a stock of turns gives is the worth of the term. It does nothing.
pub fn bounded_worth_is_worth()
    ensures { BoundedWorthIsWorth }
{}

/// An evaluation is spent only for want of a turn: uses may stand as deep one in another as there
/// are turns. It does nothing.
pub fn turns_alone_decide()
    ensures { TurnsAloneDecide }
{}

/// A condition that no assignment makes false is false for no values of its symbols, whatever they
/// are. It does nothing.
pub fn assignments_suffice()
    ensures { AssignmentsSuffice }
{}
