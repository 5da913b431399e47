// What begins a text.
ghost use Rattle.std.specs.Prelude.{◌≡◌, ◌≤◌, true, length, drop, IsTrue, option_map, option_copied};
ghost use Rattle.std.specs.List.{list_all};
ghost use Rattle.formula.specs.Atoms.{is_digit, is_letter, is_name_byte, is_digits, is_long, spelled, starts, is_name};
ghost use Rattle.fort_syntax.specs.Misspelled.{begins};
ghost use Rattle.stmt_parse.specs.Tokens.{run_length, after, name_at, constant_at, label_at};

use formula::{is_digit, is_digits, is_letter, is_long, spelled};
use fort_syntax::Name;

// Whether a word begins a text.
pub(crate) fn begins(text: &[u8], word: &[u8]) -> bool
    ensures value { result ≡ begins word.now text.now }
    ensures long { IsTrue result → length word.now ≤ length text.now }
{
    text.starts_with(word)
}

// The text behind so many bytes.
pub(crate) fn past(text: &[u8], n: usize) -> &[u8]
    requires { n ≤ length text.now }
    ensures { result.now ≡ drop n text.now }
{
    &text[n..]
}

// The text behind a word.
pub(crate) fn after<'a>(text: &'a [u8], word: &[u8]) -> Option<&'a [u8]>
    ensures { option_copied result ≡ after word.now text.now }
{
    if text.starts_with(word) {
        return Some(&text[word.len()..]);
    }
    None
}

pub(crate) fn starts_with_digit(text: &[u8]) -> bool
    ensures { result ≡ starts is_digit text.now }
{
    match text {
        [first, ..] => is_digit(*first),
        [] => false,
    }
}

fn is_name_byte(b: u8) -> bool
    ensures { result ≡ is_name_byte b }
{
    is_letter(b) || is_digit(b)
}

#[tactic(auto, using(crate::proofs::Runs::run_next, crate::proofs::Runs::run_stop, crate::proofs::Runs::run_end))]
// How many digits begin a text.
fn digits_length(text: &[u8]) -> usize
    ensures value { result ≡ run_length is_digit text.now }
    ensures within { result ≤ length text.now }
{
    let mut end = 0;
    while end < text.len() && is_digit(text[end]) {
        end += 1;
    }
    end
}

#[tactic(auto, using(crate::proofs::Runs::run_next, crate::proofs::Runs::run_stop, crate::proofs::Runs::run_end))]
// How many letters and digits begin a text.
fn word_length(text: &[u8]) -> usize
    ensures value { result ≡ run_length is_name_byte text.now }
    ensures within { result ≤ length text.now }
{
    let mut end = 0;
    while end < text.len() && is_name_byte(text[end]) {
        end += 1;
    }
    end
}

pub(crate) fn starts_with_letter(text: &[u8]) -> bool
    ensures { result ≡ starts is_letter text.now }
{
    match text {
        [first, ..] => is_letter(*first),
        [] => false,
    }
}

fn all_name_bytes(text: &[u8]) -> bool
    ensures { result ≡ list_all is_name_byte text.now }
{
    text.iter().all(|b| is_name_byte(*b))
}

// Whether a word is a name.
pub(crate) fn is_name(text: &[u8]) -> bool
    ensures { result ≡ is_name text.now }
{
    starts_with_letter(text) && all_name_bytes(text) && text.len() <= 6
}

#[tactic(auto, unfolding(crate::specs::Tokens::name_at))]
// The name that begins a text.
pub(crate) fn name_at(text: &[u8]) -> Option<(Name, &[u8])>
    ensures { option_map (λ r. (r.0, r.1.now)) result ≡ name_at text.now }
{
    let (word, rest) = text.split_at(word_length(text));
    if !is_name(word) {
        return None;
    }
    let name = Name::new(word)?;
    Some((name, rest))
}

#[tactic(auto, unfolding(crate::specs::Tokens::constant_at))]
// The constant that begins a text.
pub(crate) fn constant_at(text: &[u8]) -> Option<(u64, &[u8])>
    ensures { option_map (λ r. (r.0, r.1.now)) result ≡ constant_at text.now }
{
    let (digits, rest) = text.split_at(digits_length(text));
    if !is_digits(digits) || is_long(digits) {
        return None;
    }
    Some((spelled(digits), rest))
}

#[tactic(auto, using(crate::proofs::Labels::few_not_long, crate::proofs::Labels::few_small))]
// The number that at most five digits spell.
fn small_number(digits: &[u8]) -> u32
    requires digits { is_digits digits.now ≡ true }
    requires few { length digits.now ≤ 5 }
    ensures { result ≡ spelled digits.now }
{
    spelled(digits) as u32
}

#[tactic(auto, unfolding(crate::specs::Tokens::label_at))]
// The label that begins a text.
pub(crate) fn label_at(text: &[u8]) -> Option<(u32, &[u8])>
    ensures { option_map (λ r. (r.0, r.1.now)) result ≡ label_at text.now }
{
    let (digits, rest) = text.split_at(digits_length(text));
    if !is_digits(digits) || digits.len() > 5 {
        return None;
    }
    let label = small_number(digits);
    if label == 0 {
        return None;
    }
    Some((label, rest))
}
