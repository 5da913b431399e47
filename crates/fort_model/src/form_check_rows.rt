// Checks of single forms.
ghost use Rattle.fort_model.specs.FormCheckRows.{ChecksOfValues, ChecksOfResults, ConditionOfZero, ChecksOfActuals, GoalOfInput};

/// Which constants, powers and functions are checked.
pub fn checks_of_values()
    ensures { ChecksOfValues }
{}

/// The value of a FUNCTION is checked at each RETURN.
pub fn checks_of_results()
    ensures { ChecksOfResults }
{}

/// The middle branch of an arithmetic IF.
pub fn condition_of_zero()
    ensures { ConditionOfZero }
{}

/// Names and elements are passed unread, other actuals are evaluated.
pub fn checks_of_actuals()
    ensures { ChecksOfActuals }
{}

/// INPUT of a called unit is told by the actual.
pub fn goal_of_input()
    ensures { GoalOfInput }
{}
