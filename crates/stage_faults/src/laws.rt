// The laws of the first fault of a stage.
ghost use Rattle.stage_faults.specs.Laws.{StageFaultIsLeast, StageFaultIsFirst, HeadsAscend, HeadsAreAbove};

/// Of rules that are broken at heads and at statements of units: what is told first, unit by unit, of each the head before the
/// statements, is the fault on the least card and there of the least number; and where nothing is told, all of them are kept.
/// That is so, too, where of a rule that is broken at heads only the first one is told. It does nothing.
pub fn stage_fault_is_least()
    ensures least { StageFaultIsLeast }
    ensures first { StageFaultIsFirst }
{}

/// The heads of units stand on ascending cards, each above the number of its unit. It does nothing.
pub fn heads_ascend()
    ensures ascend { HeadsAscend }
    ensures above { HeadsAreAbove }
{}
