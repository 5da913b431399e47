// Programs that meet the premises of soundness.
ghost use Rattle.fort_laws.specs.WitnessFacts.{RotHasCallFacts};
ghost use Rattle.fort_laws.specs.WitnessRuns.{LoopMayRun, RotMayRun};
ghost use Rattle.fort_laws.specs.Witnesses.{LoopMeetsPremises, RotMeetsPremises};

/// A program with a loop, an ASSERT and ten conditions meets all that soundness wants of a program. It does nothing.
pub fn loop_meets_premises()
    ensures { LoopMeetsPremises }
{}

/// So does a program of two units with two calls and twelve conditions. It does nothing.
pub fn rot_meets_premises()
    ensures { RotMeetsPremises }
{}

/// The unit with the loop may be run: a strict processor meets the bound, and a storage fits the unit and
/// meets INPUT. It does nothing.
pub fn loop_may_run()
    ensures { LoopMayRun }
{}

/// So may both units with the calls. It does nothing.
pub fn rot_may_run()
    ensures { RotMayRun }
{}

/// The program of two units with two calls has these facts of its calls: an order, the table of
/// smashed names, and the units that its calls are of. It does nothing.
pub fn rot_has_call_facts()
    ensures { RotHasCallFacts }
{}
