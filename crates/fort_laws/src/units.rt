// Units of a program.
ghost use Rattle.fort_laws.specs.UnitLaw.{SafeUnitsAreRight, SafeUnitsEnd, SmashedHaveTypes};

/// Where named values stand for cells, what a walk takes of the types of smashed names at an ASSERT
/// is true. It does nothing.
pub fn smashed_have_types()
    ensures { SmashedHaveTypes }
{}

/// Let no walk along a path of a unit have a check as its first false event, whatever its symbols
/// stand for, no cycle go uncut, all clocks have equally many parts, and all units that it calls end
/// well. Then a strict run from its first statement comes to the end of the unit in some number of
/// steps and without error, and all of OUTPUT is true there. Statements are taken to be good, and
/// what is taken at the entry to be true. It does nothing.
pub fn safe_units_end()
    ensures { SafeUnitsEnd }
{}

/// Such a unit ends well from all storage that fits, where smashed names lie apart and INPUT is met,
/// if its notes fit it, and RETURNs alone lead to its end: names that its caller sees still hold
/// things of their types, the value of a FUNCTION is defined and has its type, and OUTPUT is met.
/// Statements are taken to be good. It does nothing.
pub fn safe_units_are_right()
    ensures { SafeUnitsAreRight }
{}
