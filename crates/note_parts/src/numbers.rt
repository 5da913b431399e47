// Numbers and cells.
ghost use Rattle.std.specs.Prelude.{◌≡◌, ◌<◌, ◌^◌, true, false, length, IfSome, IfNone, IfOk};
ghost use Rattle.formula.specs.Atoms.{digits_of, number_of};
ghost use Rattle.fort_notes.specs.Parts.{parsed, is_short_number, is_short_count, number, number_between, count, either, is_cell, cell_of, cell};
ghost use Rattle.note_parts.specs.Answers.{Gives};

use crate::Lack;
use crate::tokens::word;
use formula::{Cell, is_digits, is_long, is_number, is_same, spelled};

// The digits of a number's atom.
fn digits_of(atom: &[u8]) -> &[u8]
    ensures { result.now ≡ digits_of atom.now }
{
    match atom {
        [b'-', digits @ ..] => digits,
        _ => atom,
    }
}

// The number of an atom, where it is one of at most 18 digits behind leading zeros.
fn short_number(atom: &[u8]) -> Option<i64>
    ensures some { IfSome result (λ z. (is_short_number atom.now ≡ true) × (z ≡ number_of atom.now)) }
    ensures none { IfNone result (is_short_number atom.now ≡ false) }
{
    if !is_number(atom) {
        return None;
    }
    let digits = digits_of(atom);
    if is_long(digits) {
        return None;
    }
    let size = spelled(digits) as i64;
    match atom {
        [b'-', ..] => Some(-size),
        _ => Some(size),
    }
}

/// A number of at most 18 digits behind leading zeros, and the text behind it.
pub fn number(text: &[u8]) -> Result<(i64, &[u8]), Lack>
    ensures { Gives (λ r. parsed r.0 r.1.now) result (number text.now) }
{
    let Some((atom, rest)) = word(text) else {
        return Err(Lack::Form);
    };
    let Some(z) = short_number(atom) else {
        return Err(Lack::Form);
    };
    Ok((z, rest))
}

/// A number within bounds, and the text behind it.
pub fn number_between(least: i64, greatest: i64, text: &[u8]) -> Result<(i64, &[u8]), Lack>
    ensures { Gives (λ r. parsed r.0 r.1.now) result (number_between least greatest text.now) }
{
    let (z, rest) = number(text)?;
    if !(least <= z && z <= greatest) {
        return Err(Lack::Form);
    }
    Ok((z, rest))
}

// Whether an atom is at most 18 digits behind leading zeros.
fn is_short_count(atom: &[u8]) -> bool
    ensures { result ≡ is_short_count atom.now }
{
    is_digits(atom) && !is_long(atom)
}

/// A number that no `-` stands before, and the text behind it.
pub fn count(text: &[u8]) -> Result<(u64, &[u8]), Lack>
    ensures { Gives (λ r. parsed r.0 r.1.now) result (count text.now) }
{
    let Some((atom, rest)) = word(text) else {
        return Err(Lack::Form);
    };
    if !is_short_count(atom) {
        return Err(Lack::Form);
    }
    Ok((spelled(atom), rest))
}

/// Whether it is the first of two words that begins a text, where one of them does; and the text
/// behind it.
pub fn either<'a>(this: &[u8], other: &[u8], text: &'a [u8]) -> Result<(bool, &'a [u8]), Lack>
    ensures { Gives (λ r. parsed r.0 r.1.now) result (either this.now other.now text.now) }
{
    let Some((atom, rest)) = word(text) else {
        return Err(Lack::Form);
    };
    if is_same(this, atom) {
        return Ok((true, rest));
    }
    if is_same(other, atom) {
        return Ok((false, rest));
    }
    Err(Lack::Form)
}

// The cell that an atom is.
fn as_cell(atom: &[u8]) -> Option<Cell>
    ensures some { IfSome result (λ c. (is_cell atom.now ≡ true) × (c ≡ cell_of atom.now)) }
    ensures none { IfNone result (is_cell atom.now ≡ false) }
{
    if is_same(b"T", atom) {
        return Some(Cell::Logical(true));
    }
    if is_same(b"F", atom) {
        return Some(Cell::Logical(false));
    }
    if is_same(b"U", atom) {
        return Some(Cell::Undefined);
    }
    let z = short_number(atom)?;
    Some(Cell::Int(z as i128))
}

/// A cell, and the text behind it: a number, T, F, or U for one that is undefined.
pub fn cell(text: &[u8]) -> Result<(Cell, &[u8]), Lack>
    ensures { Gives (λ r. parsed r.0 r.1.now) result (cell text.now) }
{
    let Some((atom, rest)) = word(text) else {
        return Err(Lack::Form);
    };
    let Some(c) = as_cell(atom) else {
        return Err(Lack::Form);
    };
    Ok((c, rest))
}
