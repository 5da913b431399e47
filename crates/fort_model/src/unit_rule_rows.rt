// Small decks that break the rules on units.
ghost use Rattle.fort_model.specs.UnitRuleRows.{AdjustableDimensionsAgree, NamesOfUnits, CallsHaveUnits, FunctionsSmashNothing, DimensionsStay, CallsInRanges, ClocksHaveOneLength};

/// The actual for an adjustable dimension is the actual array's own dimension.
pub fn adjustable_dimensions_agree()
    ensures { AdjustableDimensionsAgree }
{}

/// A unit has a name of its own.
pub fn names_of_units()
    ensures { NamesOfUnits }
{}

/// A CALL is of a SUBROUTINE, and a reference of a FUNCTION.
pub fn calls_have_units()
    ensures { CallsHaveUnits }
{}

/// A FUNCTION smashes nothing that its caller sees.
pub fn functions_smash_nothing()
    ensures { FunctionsSmashNothing }
{}

/// A dimension is not smashed.
pub fn dimensions_stay()
    ensures { DimensionsStay }
{}

/// A call in the range of a DO smashes no name of the DO.
pub fn calls_in_ranges()
    ensures { CallsInRanges }
{}

/// The clocks of a unit have 1 to 4 parts, and equally many.
pub fn clocks_have_one_length()
    ensures { ClocksHaveOneLength }
{}
