// Conditions of small decks.
ghost use Rattle.fort_model.specs.ConditionRows.{GoalsOfSubscripts, ConditionsOfAdjustable, ConditionsOfRound, GoalsPastLoops, ConditionsOfRotate};

/// Each subscript is held against its own dimension.
pub fn goals_of_subscripts()
    ensures { GoalsOfSubscripts }
{}

/// An element of an array with adjustable dimensions is set.
pub fn conditions_of_adjustable()
    ensures { ConditionsOfAdjustable }
{}

/// A round of a loop, from its ASSERT to its ASSERT.
pub fn conditions_of_round()
    ensures { ConditionsOfRound }
{}

/// The variable of a DO that was left is undefined.
pub fn goals_past_loops()
    ensures { GoalsPastLoops }
{}

/// Two calls, each with its symbols.
pub fn conditions_of_rotate()
    ensures { ConditionsOfRotate }
{}
