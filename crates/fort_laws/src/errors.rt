// Errors of runs.
ghost use Rattle.fort_laws.specs.Blame.{ErringRunsAreBlamed, FailingPathsHaveFalseConditions};
ghost use Rattle.fort_laws.specs.EntryErrors.{FailingPathsErr, UnitsErrAsWalksDo};
ghost use Rattle.fort_laws.specs.Errors.{ChoicesAreDecided, ErrorsAreThoseOfWalks, RunsArriveOrErr, RunsErrWhateverCallsAnswer};

/// In a unit that no cycle goes uncut, all calls of which are of units that end well, take a
/// statement of a strict run where named values stand for the cells. There are a way from there to
/// the next cut point, and answers of calls, by which the walk tells what the run does. Either all
/// that the walk meets is true: then the run comes to that cut point, where named values stand for
/// the cells again, and goes on from there as if it began there, or ends. Or a check of the arrival,
/// of which a run knows nothing, is the first that is false: then the run comes to the cut point all
/// the same. Or the first that is false is another check: then the run errs with its kind and card,
/// at each stock of steps that is enough; but nothing is claimed where it is of a called unit's
/// INPUT. Statements are taken to be good. It does nothing.
pub fn runs_arrive_or_err()
    ensures { RunsArriveOrErr }
{}

/// Two lists of choices by which a statement leads on, all events of which are true for the same
/// answers of calls, are one: choices are decided by values. It does nothing.
pub fn choices_are_decided()
    ensures { ChoicesAreDecided }
{}

/// Choices of a walk are decided by values: for given answers of calls, a run goes one way alone. So
/// let a run go a way, for some answers. If along any way, for the same answers, a check is the first
/// false event, and it is of a run error (DEFINED, RANGE, DIVISOR, SUBSCRIPT, CHOICE, LOOP or
/// RESULT), then the run errs with its kind and card, at each stock of steps that is enough. It does
/// nothing.
pub fn errors_are_those_of_walks()
    ensures { ErrorsAreThoseOfWalks }
{}

/// Take a statement as in `runs_arrive_or_err`. If along a way to the next cut point, whatever calls
/// answer, a check of a run error is the first false event, then the run errs with its kind and card,
/// at each stock of steps that is enough. So it is where no call comes before that check. It does
/// nothing.
pub fn runs_err_whatever_calls_answer()
    ensures { RunsErrWhateverCallsAnswer }
{}

/// Take a unit in which no cycle goes uncut, all calls of which are of units that end well, with
/// notes that fit it and good statements, and a storage that fits, where smashed names lie apart and
/// INPUT is met. There are answers of calls, such that: where along a way from the entry to the next
/// cut point a check of a run error is the first false event, for these answers and for what names
/// hold at the entry, a run of the unit errs with its kind and card, at each stock of steps that is
/// enough. It does nothing.
pub fn units_err_as_walks_do()
    ensures { UnitsErrAsWalksDo }
{}

/// Take a unit and a storage as in `units_err_as_walks_do`. If along a path from the entry, for what
/// names hold there and whatever calls answer, a check of a run error is the first false event, then
/// a run of the unit errs with its kind and card, at each stock of steps that is enough. It does
/// nothing.
pub fn failing_paths_err()
    ensures { FailingPathsErr }
{}

/// Take a unit and a storage as in `units_err_as_walks_do`, and let a run of the unit err. Then the
/// walk along some path of the unit, for what names hold at the entry, has a check as its first false
/// event: it is of the error's kind and card; or of an ASSERT or its clock, or of a called unit's
/// INPUT, of which a run knows nothing. It does nothing.
pub fn erring_runs_are_blamed()
    ensures { ErringRunsAreBlamed }
{}

/// Where the walk along a path of a unit has a check as its first false event, an exact list of
/// conditions has one of that unit, of the check's kind and card, that is false for these values of
/// symbols. It does nothing.
pub fn failing_paths_have_false_conditions()
    ensures { FailingPathsHaveFalseConditions }
{}
