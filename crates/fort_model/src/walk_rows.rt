// The conditions of a small deck, whole.
ghost use Rattle.fort_model.specs.WalkRows.{ConditionsOfInc};

/// The conditions of an assignment, each with all its hypotheses.
pub fn conditions_of_inc()
    ensures { ConditionsOfInc }
{}
