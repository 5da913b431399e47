// Steps and fuel of runs.
ghost use Rattle.step_laws.specs.Unfolded.{RunsUnfold};
ghost use Rattle.step_laws.specs.Steps.{FuelDoesNotMatter, MoreStepsChangeNothing, FewerStepsAreNotEnough};

/// A run comes to the same for every depth of recursion above its stock of steps. So the depth is
/// no part of what a run means. It does nothing.
pub fn fuel_does_not_matter()
    ensures { FuelDoesNotMatter }
{}

/// A run that ended, or erred, does so with every greater stock of steps too: with the same value
/// and storage, and what is left grows by as much. It does nothing.
pub fn more_steps_change_nothing()
    ensures { MoreStepsChangeNothing }
{}

/// A run that ended has used some of its stock. With fewer steps than it used it would need a step
/// more. It does nothing.
pub fn fewer_steps_are_not_enough()
    ensures { FewerStepsAreNotEnough }
{}

/// A run is what it is without any bound on its depth: a unit is entered, run from its first
/// statement on, and left; and from a point on it takes a step, does what the statement there
/// does, running units for its calls, and goes on where that leads. It does nothing.
pub fn runs_unfold()
    ensures { RunsUnfold }
{}
