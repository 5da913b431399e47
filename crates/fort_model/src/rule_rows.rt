// Small decks that break the rules on calls.
ghost use Rattle.fort_model.specs.RuleRows.{SmashedActualsStandOnce, SmashedActualsAreNames, ActualsMatchDummies, CommonIsNotPassedToBeSmashed, CallersDeclareBlocks, CallsOfItself};

/// What a smashed dummy gets may stand in no other actual, nor in a subscript.
pub fn smashed_actuals_stand_once()
    ensures { SmashedActualsStandOnce }
{}

/// A smashed dummy gets a bare name.
pub fn smashed_actuals_are_names()
    ensures { SmashedActualsAreNames }
{}

/// Actuals match dummies by type and dimensions.
pub fn actuals_match_dummies()
    ensures { ActualsMatchDummies }
{}

/// A COMMON entity is not smashed by two ways.
pub fn common_is_not_passed_to_be_smashed()
    ensures { CommonIsNotPassedToBeSmashed }
{}

/// A caller declares the blocks of the unit that it calls.
pub fn callers_declare_blocks()
    ensures { CallersDeclareBlocks }
{}

/// A unit that calls itself.
pub fn calls_of_itself()
    ensures { CallsOfItself }
{}
