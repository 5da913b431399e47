// Which rule a text breaks that spells no statement.
ghost use Rattle.std.specs.Prelude.{◌≡◌, ◌≤◌, ◌-◌, ◌+◌, suc, length, drop, option_copied, IfSome, IfNone};
ghost use Rattle.formula.specs.Atoms.{is_digit};
ghost use Rattle.fort_syntax.specs.Grammar.{is_deep_from, is_deep};
ghost use Rattle.fort_syntax.specs.Misspelled.{first_word, behind_closing, or_whole, head_text, always_excluded, excluded_words, is_assigned, excluded_word, pointed_words, size_of, is_loose, has_real_from, has_real, counted, has_big_from, has_big, refused, refusal_of};

use crate::stems::{excluded, pointed_size};
use crate::tokens::{begins, past, starts_with_digit, starts_with_letter};
use formula::{Word, is_digit};
use fort_syntax::{Dialect, Rule};

// Some bracket is the 65th that is open.
pub(crate) fn is_deep(text: &[u8]) -> bool
    ensures { result ≡ is_deep text.now }
{
    let mut opened: usize = 0;
    for b in text {
        if *b == b'(' {
            if opened >= 64 {
                return true;
            }
            opened += 1;
        } else if *b == b')' {
            opened = opened.saturating_sub(1);
        }
    }
    false
}

// How many digits behind leading zeros a run has, with one digit more.
fn counted(n: usize, b: u8) -> usize
    requires { n ≤ 18 }
    ensures { result ≡ counted n b }
{
    if n == 0 && b == b'0' { 0 } else { n + 1 }
}

// A run of digits has more than 18 behind its leading zeros.
fn has_big(text: &[u8]) -> bool
    ensures { result ≡ has_big text.now }
{
    let mut n: usize = 0;
    for b in text {
        if is_digit(*b) {
            n = counted(n, *b);
            if n > 18 {
                return true;
            }
        } else {
            n = 0;
        }
    }
    false
}

// What stands behind the closing bracket of the one that was opened before the text.
fn behind_closing(text: &[u8]) -> &[u8]
    ensures { result.now ≡ behind_closing 0 text.now }
{
    let mut opened: usize = 0;
    let mut rest = text;
    while let [b, more @ ..] = rest {
        rest = more;
        if *b == b')' {
            if opened == 0 {
                return rest;
            }
            opened -= 1;
        } else if *b == b'(' {
            opened += 1;
        }
    }
    rest
}

// What follows `IF(` and its closing bracket, where the text begins so and something follows;
// else the text.
fn head_text(text: &[u8]) -> &[u8]
    ensures { result.now ≡ head_text text.now }
{
    if !begins(text, b"IF(") {
        return text;
    }
    let rest = behind_closing(&text[3..]);
    if rest.is_empty() { text } else { rest }
}

// An assigned GO TO.
fn is_assigned(text: &[u8]) -> bool
    ensures { result ≡ is_assigned text.now }
{
    begins(text, b"GOTO") && starts_with_letter(&text[4..])
}

// The word for which the text is refused.
fn excluded_word(dialect: Dialect, text: &[u8]) -> Option<Word>
    ensures { result ≡ excluded_word dialect text.now }
{
    if is_assigned(text) {
        return Word::new(b"ASSIGNED");
    }
    excluded(dialect, text)
}

// The text begins with a point that begins no word in points, and has a digit directly before or
// behind it.
fn is_loose(before: u8, text: &[u8]) -> bool
    ensures { result ≡ is_loose before text.now }
{
    begins(text, b".")
        && pointed_size(text) == 0
        && (is_digit(before) || starts_with_digit(&text[1..]))
}

#[tactic(auto, using(crate::proofs::Points::passed_over, crate::proofs::Points::judged, crate::proofs::Points::loose_found, crate::proofs::Points::none_left))]
// Some point that begins no word in points has a digit beside it.
fn has_real(text: &[u8]) -> bool
    ensures { result ≡ has_real text.now }
{
    let mut skipped: usize = 0;
    let mut before: u8 = 0;
    let mut i: usize = 0;
    while i < text.len() {
        let rest = past(text, i);
        if skipped > 0 {
            skipped -= 1;
        } else {
            if is_loose(before, rest) {
                return true;
            }
            skipped = pointed_size(rest).saturating_sub(1);
        }
        before = text[i];
        i += 1;
    }
    false
}

/// The rule of 7 to 11 that a text breaks which spells no statement.
pub fn refusal_of(dialect: Dialect, text: &[u8]) -> Rule
    ensures { result ≡ refusal_of dialect text.now }
{
    if let Some(word) = excluded_word(dialect, head_text(text)) {
        return Rule::Excluded(word);
    }
    if has_real(text) {
        return Rule::RealConstant;
    }
    if has_big(text) {
        return Rule::BigNumber;
    }
    if is_deep(text) {
        return Rule::TooDeep;
    }
    Rule::BadStatement
}
