// What conditions say of walks.
ghost use Rattle.fort_laws.specs.Exactness.{ChecksDoNotDependOnValues, ConditionsAreExact};
ghost use Rattle.fort_laws.specs.ValidConditions.{ValidConditionsMakePathsSafe, WordsTellSymbols};
ghost use Rattle.fort_laws.specs.Numerals.{NumeralsAreDecimal};

/// Along all paths of a program, its conditions are exact. There is one for each check of each
/// walk, in order; whatever the values of symbols, its hypotheses are all true just where the walk
/// reaches that check, and it is false just where the walk fails there. It does nothing.
pub fn conditions_are_exact()
    ensures { ConditionsAreExact }
{}

/// The kinds and cards of the checks of a walk are the same for all values. It does nothing.
pub fn checks_do_not_depend_on_values()
    ensures { ChecksDoNotDependOnValues }
{}

/// No two symbols have one word: whatever symbols stand for, words can stand for. It does nothing.
pub fn words_tell_symbols()
    ensures { WordsTellSymbols }
{}

/// Where an exact list of conditions is valid, no walk along a path of a unit has a check as its
/// first false event, whatever its symbols stand for. It does nothing.
pub fn valid_conditions_make_paths_safe()
    ensures { ValidConditionsMakePathsSafe }
{}

/// The numeral in the word of a symbol is the number in decimal digits, below 10 to the 64th power.
/// It does nothing.
pub fn numerals_are_decimal()
    ensures { NumeralsAreDecimal }
{}
