// What walks along paths of small decks come to.
ghost use Rattle.fort_model.specs.VerdictRows.{WalksOfInc, WalksKeepTheBound, WalksPastLoops, ClocksFallByTheirFirstPart, CallsKeepWhatIsNotSmashed, CallsTakeOutput, FunctionsInOneAnother};

/// A walk is good where its start holds and its checks do.
pub fn walks_of_inc()
    ensures { WalksOfInc }
{}

/// A walk goes off at once for bounds that no processor has.
pub fn walks_keep_the_bound()
    ensures { WalksKeepTheBound }
{}

/// The variable of a DO that was left is undefined.
pub fn walks_past_loops()
    ensures { WalksPastLoops }
{}

/// Clocks are compared part by part.
pub fn clocks_fall_by_their_first_part()
    ensures { ClocksFallByTheirFirstPart }
{}

/// What a called unit does not smash keeps its value, and its INPUT is checked.
pub fn calls_keep_what_is_not_smashed()
    ensures { CallsKeepWhatIsNotSmashed }
{}

/// A called unit's OUTPUT is taken for true.
pub fn calls_take_output()
    ensures { CallsTakeOutput }
{}

/// A function's value may be the actual of another call.
pub fn functions_in_one_another()
    ensures { FunctionsInOneAnother }
{}
