// Rules that units alone decide, and numerals.
ghost use Rattle.fort_laws.specs.Judged.{CallsAreJudgedByUnits};

/// The rules that are judged before the table of smashed names is known are broken alike in
/// programs with the same units. It does nothing.
pub fn calls_are_judged_by_units()
    ensures { CallsAreJudgedByUnits }
{}
