// What runs leave as it was.
ghost use Rattle.fort_laws.specs.Declared.{RulesMakeSound};
ghost use Rattle.fort_laws.specs.Frame.{RunsChangeOnlySmashed, RunsWithoutSmashingChangeNothing, EvaluationChangesNothing, RulesPassSmashedAlone};

/// In a deck that keeps the rules on calls a run of a unit changes only cells of dummies and COMMON
/// entities that the unit smashes, whether it ends, errs or needs a step more, and whichever
/// arguments pass by copy. It does nothing.
pub fn runs_change_only_smashed()
    ensures { RunsChangeOnlySmashed }
{}

/// A run of a unit that smashes no dummy and no COMMON entity, as a FUNCTION may not, leaves the
/// storage as it was where it ends. It does nothing.
pub fn runs_without_smashing_change_nothing()
    ensures { RunsWithoutSmashingChangeNothing }
{}

/// Evaluating an expression of a statement leaves the storage as it was where it ends, if no
/// FUNCTION of the deck smashes a dummy or a COMMON entity. It does nothing.
pub fn evaluation_changes_nothing()
    ensures { EvaluationChangesNothing }
{}

/// A program that keeps the rules on smashed names passes them alone: as bare names that stand in
/// no other actual and are no COMMON entities of both units. No FUNCTION in it smashes a dummy or a
/// COMMON entity. It does nothing.
pub fn rules_pass_smashed_alone()
    ensures { RulesPassSmashedAlone }
{}

/// A program that keeps the rules on calls has all that the laws of runs need, where its
/// declarations are in order. It does nothing.
pub fn rules_make_sound()
    ensures { RulesMakeSound }
{}
