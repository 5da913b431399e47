// Conditions of a pool are those of events.
ghost use Rattle.met_conditions.specs.Laws.{ConditionsAreIn, ConditionsAreOfEvents};

/// As trees, the conditions of what a walk met are those of its events. It does nothing.
pub fn conditions_are_of_events()
    ensures { ConditionsAreOfEvents }
{}

/// The conditions of what a walk met are of the pool that its terms are of. It does nothing.
pub fn conditions_are_in()
    ensures { ConditionsAreIn }
{}
