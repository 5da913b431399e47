// Laws of definitions and of terms that were read.
ghost use Rattle.formula.specs.Adding.{AddedAreSound, AddedStay};
ghost use Rattle.formula.specs.ReadableTerms.{ReadTermsAreReadable};

/// Definitions that were added with a pool stay so when nodes are added to it. It does nothing.
pub fn added_definitions_stay()
    ensures { AddedStay }
{}

/// Definitions that were added with a pool have their bodies in it, and each use there is of an
/// earlier definition or of the one that the body is of, with its number of arguments. It does
/// nothing.
pub fn added_definitions_are_sound()
    ensures { AddedAreSound }
{}

/// A term that was read has numbers of at most 18 digits and names that are symbols, its functions
/// take their arguments, and each use is of a definition that it was read with, with its number of
/// arguments. It does nothing.
pub fn read_terms_are_readable()
    ensures { ReadTermsAreReadable }
{}
