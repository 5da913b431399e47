// The laws of the first fault over units.
ghost use Rattle.unit_stages.specs.Before.{NoneBefore, OneMore, AllBefore, KeptByAll};

/// Of the first faults of units, one unit after the other, the sooner ones lead to the first fault of all of them: before the
/// first unit nothing is told, with each unit the sooner of its fault and of what was told before, and behind the last one the
/// first fault of the stage; and where nothing is told, all rules of the stage are kept. It does nothing.
pub fn first_of_units()
    ensures none { NoneBefore }
    ensures more { OneMore }
    ensures whole { AllBefore }
    ensures kept { KeptByAll }
{}
