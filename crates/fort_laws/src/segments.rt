// Runs from one cut point to the next, and to the end of a unit.
ghost use Rattle.fort_laws.specs.Segments.{SafeRunsArrive};
ghost use Rattle.fort_laws.specs.WholeRuns.{SafeRunsEnd, StatementsKeepUnsmashed};

/// In a unit that no cycle goes uncut, take a statement of a strict run where named values stand
/// for the cells. If on no way from there to the next cut point a check is the first event to
/// fail, then the run comes to such a point: to the end of the unit, where all of OUTPUT is true,
/// or to an ASSERT, which is true with its clock not negative, and fallen where one is to fall;
/// from there it goes on as a run that begins there. Named values then stand for the cells again.
/// Statements are taken to be good, and calls to match. It does nothing.
pub fn safe_runs_arrive()
    ensures { SafeRunsArrive }
{}

/// In such a unit, where the clocks of all ASSERTs have equally many parts, and where from an
/// ASSERT that is true no check is the first to fail on a way to the next cut point: a strict run
/// from a point from which no check is the first to fail comes to the end of the unit, in some
/// number of steps and without error, and all of OUTPUT is true there. The same is taken as in
/// `safe_runs_arrive`. It does nothing.
pub fn safe_runs_end()
    ensures { SafeRunsEnd }
{}

/// Walks of statements leave names alone that the unit does not smash, by a table that holds just
/// what units smash. So one thing that `safe_runs_arrive` takes is shown. It does nothing.
pub fn statements_keep()
    ensures { StatementsKeepUnsmashed }
{}
