// Calls go as in the model.
ghost use Rattle.run_calls.specs.Laws.{CallsAreObeyed, UnitsAreEntered, UnitsAreLeft};

/// The instruction of a call shows where the call leads. It does nothing.
pub fn calls_are_obeyed()
    ensures { CallsAreObeyed }
{}

/// Entering a unit is a step. It does nothing.
pub fn units_are_entered()
    ensures { UnitsAreEntered }
{}

/// At the end of a unit leaving it takes no step. It does nothing.
pub fn units_are_left()
    ensures { UnitsAreLeft }
{}
