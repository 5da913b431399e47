//! Where a run stands, how it goes on from there, and that this is how the model's runs go on.
#![tactic(auto)]

ghost use Rattle.run_frames.specs.Configs.{RunsAreRests, StepsAreTaken, WorkChangesNothing, WorkEnds};

/// A piece of work that takes no step leaves the rest of a run as it was. It does nothing.
pub fn work_changes_nothing()
    ensures { WorkChangesNothing }
{}

/// Where a step is wanted and there is none, a run needs one more; with one it goes on behind it. It
/// does nothing.
pub fn steps_are_taken()
    ensures { StepsAreTaken }
{}

/// Work ends where a step is wanted or nothing is left to do. It does nothing.
pub fn work_ends()
    ensures { WorkEnds }
{}

/// Runs of the model go on so, and a run is what is left where its unit is to be entered. It does
/// nothing.
pub fn runs_are_rests()
    ensures { RunsAreRests }
{}
