// What begins a text.
ghost use Rattle.std.specs.Prelude.{◌≡◌, ◌≤◌, ◌<◌, ◌^◌, length, decimal, option_map, option_copied, IfSome, IfNone};
ghost use Rattle.formula.specs.Atoms.{is_digit, is_letter, is_name, is_name_byte, same_bytes, spelled};
ghost use Rattle.event_text.specs.Readable.{is_mark, is_parameter};
ghost use Rattle.event_reading.specs.Readings.{after, byte_at, function_name_at, is_numeral, kind_at, kind_named, name_at, number_at, parameter_at, run_length};

use formula::{Word, is_digit, is_function_name, is_letter, is_same};
use fort_syntax::{Kind, Name};
use itoa::Buffer;

/// The text behind a word.
pub fn after<'a>(text: &'a [u8], word: &[u8]) -> Option<&'a [u8]>
    ensures { option_copied result ≡ after word.now text.now }
{
    if text.starts_with(word) {
        return Some(&text[word.len()..]);
    }
    None
}

fn is_name_byte(b: u8) -> bool
    ensures { result ≡ is_name_byte b }
{
    is_letter(b) || is_digit(b)
}

#[tactic(auto, using(crate::proofs::Runs::run_next, crate::proofs::Runs::run_stop, crate::proofs::Runs::run_end))]
// How many digits begin a text.
fn digits_length(text: &[u8]) -> usize
    ensures value { result ≡ run_length is_digit text.now }
    ensures within { result ≤ length text.now }
{
    let mut end = 0;
    while end < text.len() && is_digit(text[end]) {
        end += 1;
    }
    end
}

#[tactic(auto, using(crate::proofs::Runs::run_next, crate::proofs::Runs::run_stop, crate::proofs::Runs::run_end))]
// How many letters begin a text.
fn letters_length(text: &[u8]) -> usize
    ensures value { result ≡ run_length is_letter text.now }
    ensures within { result ≤ length text.now }
{
    let mut end = 0;
    while end < text.len() && is_letter(text[end]) {
        end += 1;
    }
    end
}

#[tactic(auto, using(crate::proofs::Runs::run_next, crate::proofs::Runs::run_stop, crate::proofs::Runs::run_end))]
// How many letters and digits begin a text.
fn word_length(text: &[u8]) -> usize
    ensures value { result ≡ run_length is_name_byte text.now }
    ensures within { result ≤ length text.now }
{
    let mut end = 0;
    while end < text.len() && is_name_byte(text[end]) {
        end += 1;
    }
    end
}

#[tactic(auto, using(crate::proofs::Short::short_name))]
// Whether a word is a name of FORTRAN.
fn is_name(text: &[u8]) -> bool
    ensures { result ≡ is_name text.now }
{
    is_function_name(text) && text.len() <= 6
}

// Whether a word may be a parameter.
fn is_parameter(word: &[u8]) -> bool
    ensures { result ≡ is_parameter word.now }
{
    is_name(word)
        && !(is_same(word, b"T")
            || is_same(word, b"F")
            || is_same(word, b"LEAST")
            || is_same(word, b"GREATEST")
            || is_same(word, b"CLOCK"))
}

#[tactic(auto, unfolding(crate::specs::Readings::name_at))]
/// The name that begins a text.
pub fn name_at(text: &[u8]) -> Option<(Name, &[u8])>
    ensures { option_map (λ r. (r.0, r.1.now)) result ≡ name_at text.now }
{
    let (word, rest) = text.split_at(word_length(text));
    if !is_name(word) {
        return None;
    }
    let name = Name::new(word)?;
    Some((name, rest))
}

#[tactic(auto, unfolding(crate::specs::Readings::function_name_at))]
/// The name of a function that begins a text.
pub fn function_name_at(text: &[u8]) -> Option<(Word, &[u8])>
    ensures { option_map (λ r. (r.0, r.1.now)) result ≡ function_name_at text.now }
{
    let (word, rest) = text.split_at(word_length(text));
    if !is_function_name(word) {
        return None;
    }
    let name = Word::new(word)?;
    Some((name, rest))
}

#[tactic(auto, unfolding(crate::specs::Readings::parameter_at))]
/// The parameter that begins a text.
pub fn parameter_at(text: &[u8]) -> Option<(Word, &[u8])>
    ensures { option_map (λ r. (r.0, r.1.now)) result ≡ parameter_at text.now }
{
    let (word, rest) = text.split_at(word_length(text));
    if !is_parameter(word) {
        return None;
    }
    let name = Word::new(word)?;
    Some((name, rest))
}

#[tactic(auto, using(crate::proofs::Values::no_less, crate::proofs::Values::next_digit))]
// The number that digits spell, where it is below 2^64.
fn value(digits: &[u8]) -> Option<u64>
    ensures some { IfSome result (λ n. n ≡ spelled digits.now) }
    ensures none { IfNone result (2 ^ 64 ≤ spelled digits.now) }
{
    let mut n: u64 = 0;
    let mut rest = digits;
    while let [b, behind @ ..] = rest {
        let Some(tens) = n.checked_mul(10) else {
            return None;
        };
        let Some(more) = tens.checked_add(b.saturating_sub(b'0') as u64) else {
            return None;
        };
        n = more;
        rest = behind;
    }
    Some(n)
}

// Whether digits are how a number is written.
fn is_written(n: u64, digits: &[u8]) -> bool
    ensures { result ≡ same_bytes (decimal n) digits.now }
{
    let mut buffer = Buffer::new();
    is_same(buffer.format(n).as_bytes(), digits)
}

#[tactic(auto, unfolding(crate::specs::Readings::number_at))]
/// The number that begins a text, where it is at most so great.
pub fn number_at(text: &[u8], most: u64) -> Option<(u64, &[u8])>
    ensures value { option_map (λ r. (r.0, r.1.now)) result ≡ number_at most text.now }
    ensures few { IfSome result (λ r. r.0 ≤ most) }
{
    let (digits, rest) = text.split_at(digits_length(text));
    let Some(n) = value(digits) else {
        return None;
    };
    if n > most || !is_written(n, digits) {
        return None;
    }
    Some((n, rest))
}

// Whether a byte is a mark.
fn is_mark(b: u8) -> bool
    ensures { result ≡ is_mark b }
{
    b == b'-' || is_letter(b)
}

/// The mark that begins a text.
pub fn mark_at(text: &[u8]) -> Option<(u8, &[u8])>
    ensures { option_map (λ r. (r.0, r.1.now)) result ≡ byte_at is_mark text.now }
{
    match text {
        [b, rest @ ..] if is_mark(*b) => Some((*b, rest)),
        _ => None,
    }
}

/// The letter that begins a text.
pub fn letter_at(text: &[u8]) -> Option<(u8, &[u8])>
    ensures { option_map (λ r. (r.0, r.1.now)) result ≡ byte_at is_letter text.now }
{
    match text {
        [b, rest @ ..] if is_letter(*b) => Some((*b, rest)),
        _ => None,
    }
}

// The kind of a word.
fn kind_named(word: &[u8]) -> Option<Kind>
    ensures { result ≡ kind_named word.now }
{
    if is_same(word, b"DEFINED") {
        return Some(Kind::DefinedCheck);
    }
    if is_same(word, b"RANGE") {
        return Some(Kind::RangeCheck);
    }
    if is_same(word, b"DIVISOR") {
        return Some(Kind::DivisorCheck);
    }
    if is_same(word, b"SUBSCRIPT") {
        return Some(Kind::SubscriptCheck);
    }
    if is_same(word, b"CHOICE") {
        return Some(Kind::ChoiceCheck);
    }
    if is_same(word, b"LOOP") {
        return Some(Kind::LoopCheck);
    }
    if is_same(word, b"RESULT") {
        return Some(Kind::ResultCheck);
    }
    if is_same(word, b"INPUT") {
        return Some(Kind::InputCheck);
    }
    if is_same(word, b"ASSERT") {
        return Some(Kind::AssertCheck);
    }
    if is_same(word, b"CLOCK") {
        return Some(Kind::ClockCheck);
    }
    if is_same(word, b"FALL") {
        return Some(Kind::FallCheck);
    }
    if is_same(word, b"OUTPUT") {
        return Some(Kind::OutputCheck);
    }
    None
}

#[tactic(auto, unfolding(crate::specs::Readings::kind_at))]
/// The kind whose word begins a text.
pub fn kind_at(text: &[u8]) -> Option<(Kind, &[u8])>
    ensures { option_map (λ r. (r.0, r.1.now)) result ≡ kind_at text.now }
{
    let (word, rest) = text.split_at(letters_length(text));
    let kind = kind_named(word)?;
    Some((kind, rest))
}
