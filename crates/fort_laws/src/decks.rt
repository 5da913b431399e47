// What well-formed decks that keep the rules give.
ghost use Rattle.fort_laws.specs.GoodDecks.{
  BlocksHoldCommons,
  CallsAgree,
  DecksAreCorrect,
  EndsAreReturns,
  StatementsAreTyped,
  WellFormedIsDeclared,
};

/// What stands in the COMMON blocks of a well-formed unit are COMMON entities. It does nothing.
pub fn blocks_are_common()
    ensures { BlocksHoldCommons }
{}

/// The units of a well-formed deck are as declarations make them, which the laws of runs take, if
/// each unit has the COMMON blocks of those that it calls. It does nothing.
pub fn well_formed_is_declared()
    ensures { WellFormedIsDeclared }
{}

/// The calls of a well-formed deck that keeps the rules agree with the units that they are of: in
/// the types of COMMON entities, and no data name of the caller has the called unit's name. It does
/// nothing.
pub fn calls_agree()
    ensures { CallsAgree }
{}

/// In a well-formed unit of a program that keeps the rules the parts of each statement have the
/// types that their places demand, and its calls are those of the text. It does nothing.
pub fn statements_are_typed()
    ensures { StatementsAreTyped }
{}

/// In a well-formed unit of a program that keeps the rules RETURNs alone lead to the end. It does
/// nothing.
pub fn ends_are_returns()
    ensures { EndsAreReturns }
{}

/// Soundness for decks. Take a well-formed deck that keeps the rules, whose notes fit, and an exact
/// list of conditions for it. If they are all valid, each unit on each processor of the dialect that
/// meets the bound, from each storage that fits, where smashed names lie apart and INPUT is met,
/// ends without error and meets OUTPUT. It does nothing.
pub fn decks_are_correct()
    ensures { DecksAreCorrect }
{}
