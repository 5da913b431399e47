// Words with a form.
ghost use Rattle.std.specs.Prelude.{◌≡◌, ◌≤◌, length};
ghost use Rattle.formula.specs.Atoms.{is_name, is_symbol, is_function_name};
ghost use Rattle.fort_notes.specs.Parts.{parsed, word_of};
ghost use Rattle.fort_notes.specs.Forms.{is_parameter, is_entity};
ghost use Rattle.note_parts.specs.Answers.{Finds};

use crate::tokens::word;
use formula::{Word, is_function_name, is_same, is_symbol};
use fort_syntax::Name;

#[tactic(auto, using(crate::proofs::Atoms::short_name))]
/// Whether an atom is a name of FORTRAN: 1 to 6 letters and digits, a letter first.
pub fn is_name(atom: &[u8]) -> bool
    ensures { result ≡ is_name atom.now }
{
    is_function_name(atom) && atom.len() <= 6
}

// Whether an atom may be a parameter: a name, and no word that notes give to nothing of their own.
fn is_parameter(atom: &[u8]) -> bool
    ensures { result ≡ is_parameter atom.now }
{
    is_name(atom)
        && !(is_same(atom, b"T")
            || is_same(atom, b"F")
            || is_same(atom, b"LEAST")
            || is_same(atom, b"GREATEST")
            || is_same(atom, b"CLOCK"))
}

// Whether an atom may name what a run begins with: a symbol, and neither a bound nor CLOCK.
fn is_entity(atom: &[u8]) -> bool
    ensures { result ≡ is_entity atom.now }
{
    is_symbol(atom)
        && !(is_same(atom, b"LEAST") || is_same(atom, b"GREATEST") || is_same(atom, b"CLOCK"))
}

// The word of an atom that is no longer than words may be.
fn as_word(atom: &[u8]) -> Word
    requires low { 1 ≤ length atom.now }
    requires high { length atom.now ≤ 24 }
    ensures { result ≡ atom.now }
{
    Word::new(atom).unwrap()
}

// The name of an atom that is no longer than names may be.
fn as_name(atom: &[u8]) -> Name
    requires low { 1 ≤ length atom.now }
    requires high { length atom.now ≤ 6 }
    ensures { result ≡ atom.now }
{
    Name::new(atom).unwrap()
}

#[tactic(auto, using(crate::proofs::Atoms::symbol_given, crate::proofs::Atoms::symbol_short))]
/// A symbol, and the text behind it.
pub fn symbol(text: &[u8]) -> Option<(Word, &[u8])>
    ensures { Finds (λ r. parsed r.0 r.1.now) result (word_of is_symbol text.now) }
{
    let (atom, rest) = word(text)?;
    if !is_symbol(atom) {
        return None;
    }
    Some((as_word(atom), rest))
}

#[tactic(auto, using(crate::proofs::Atoms::entity_given, crate::proofs::Atoms::entity_short))]
/// A symbol that is neither a bound nor CLOCK, and the text behind it.
pub fn entity(text: &[u8]) -> Option<(Word, &[u8])>
    ensures { Finds (λ r. parsed r.0 r.1.now) result (word_of is_entity text.now) }
{
    let (atom, rest) = word(text)?;
    if !is_entity(atom) {
        return None;
    }
    Some((as_word(atom), rest))
}

#[tactic(auto, using(crate::proofs::Atoms::function_given, crate::proofs::Atoms::function_short))]
/// The name of a function, and the text behind it.
pub fn function_name(text: &[u8]) -> Option<(Word, &[u8])>
    ensures { Finds (λ r. parsed r.0 r.1.now) result (word_of is_function_name text.now) }
{
    let (atom, rest) = word(text)?;
    if !is_function_name(atom) {
        return None;
    }
    Some((as_word(atom), rest))
}

#[tactic(auto, using(crate::proofs::Atoms::parameter_given, crate::proofs::Atoms::parameter_short))]
/// A parameter, and the text behind it.
pub fn parameter(text: &[u8]) -> Option<(Word, &[u8])>
    ensures { Finds (λ r. parsed r.0 r.1.now) result (word_of is_parameter text.now) }
{
    let (atom, rest) = word(text)?;
    if !is_parameter(atom) {
        return None;
    }
    Some((as_word(atom), rest))
}

#[tactic(auto, using(crate::proofs::Atoms::name_given, crate::proofs::Atoms::name_short))]
/// The name of a unit, and the text behind it.
pub fn unit_name(text: &[u8]) -> Option<(Name, &[u8])>
    ensures { Finds (λ r. parsed r.0 r.1.now) result (word_of is_name text.now) }
{
    let (atom, rest) = word(text)?;
    if !is_name(atom) {
        return None;
    }
    Some((as_name(atom), rest))
}
