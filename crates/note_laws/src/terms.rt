// Definitions, terms and the bound.
ghost use Rattle.note_laws.specs.Laws.{
  BoundsAreSmall,
  DefinitionsAreReadable,
  ProofsAreReadable,
  TermsAreReadable,
};

/// Each definition of a deck whose notes are not at fault could be added to those before it, and its
/// line can be read back behind theirs. It does nothing.
pub fn definitions_are_readable()
    ensures { DefinitionsAreReadable }
{}

/// Each term of the INPUT, the OUTPUT and the ASSERTs of such a deck, with their clocks, can be read
/// back where its definitions are known: numbers have at most 18 digits, names are symbols, functions
/// have their arguments, and uses of definitions their numbers of arguments. It does nothing.
pub fn terms_are_readable()
    ensures { TermsAreReadable }
{}

/// So can each term of its certificates. It does nothing.
pub fn proofs_are_readable()
    ensures { ProofsAreReadable }
{}

/// The bound of such a deck is from 1 to 10^18 - 1. It does nothing.
pub fn bounds_are_small()
    ensures { BoundsAreSmall }
{}
