// What substitution does to the worth of terms.
ghost use Rattle.formula.specs.SubstitutionLaws.{SubstitutionIsAssignment, SubstitutionIsAssignmentBy, SubstitutionsAgree};

/// A term with terms put for its symbols and entry values is worth what it was worth where each
/// symbol, and each entry value, had the worth of what was put for it: whatever definitions make
/// of their arguments, and so under every list of definitions. It does nothing.
pub fn substitution_is_assignment()
    ensures by_uses { SubstitutionIsAssignmentBy }
    ensures by_definitions { SubstitutionIsAssignment }
{}

/// Substitutions that put the same for the symbols of a term, and the same for its entry values,
/// give one term. It does nothing.
pub fn substitutions_agree()
    ensures { SubstitutionsAgree }
{}
