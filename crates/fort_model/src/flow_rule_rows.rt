// Small decks that break the rules on the flow in a unit.
ghost use Rattle.fort_model.specs.FlowRuleRows.{PassedOverInARound, LastStatementsOfLoops, RangesNest, JumpsStayOutside, LoopsKeepTheirNames, UnitsEnd};

/// Under 77 a DO that is passed over may be met again without an ASSERT.
pub fn passed_over_in_a_round()
    ensures { PassedOverInARound }
{}

/// What may end a DO.
pub fn last_statements_of_loops()
    ensures { LastStatementsOfLoops }
{}

/// Ranges of DOs and blocks lie one in another.
pub fn ranges_nest()
    ensures { RangesNest }
{}

/// No jump enters a range or a block.
pub fn jumps_stay_outside()
    ensures { JumpsStayOutside }
{}

/// A DO's variable and parameters stay as they are in its range.
pub fn loops_keep_their_names()
    ensures { LoopsKeepTheirNames }
{}

/// What may end a unit.
pub fn units_end()
    ensures { UnitsEnd }
{}
