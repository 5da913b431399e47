// Atoms: numbers, symbols, names of functions.
ghost use Rattle.std.specs.Prelude.{◌≡◌, ◌<◌, ◌^◌, length, true, false, IfOk, IfErr};
ghost use Rattle.std.specs.List.{list_all};
ghost use Rattle.formula.specs.Atoms.{same_bytes, is_digit, is_letter, is_digits, is_symbol_byte, is_name_byte, starts, spelled, without_zeros, is_long, minus, digits_of, is_number, number_of, is_symbol, is_function_name};

use crate::ReadFault;

/// Whether a byte is a digit.
pub fn is_digit(b: u8) -> bool
    ensures { result ≡ is_digit b }
{
    b'0' <= b && b <= b'9'
}

/// Whether a byte is an upper-case letter.
pub fn is_letter(b: u8) -> bool
    ensures { result ≡ is_letter b }
{
    b'A' <= b && b <= b'Z'
}

fn is_symbol_byte(b: u8) -> bool
    ensures { result ≡ is_symbol_byte b }
{
    is_letter(b) || is_digit(b) || b == b'-'
}

fn is_name_byte(b: u8) -> bool
    ensures { result ≡ is_name_byte b }
{
    is_letter(b) || is_digit(b)
}

fn starts_with_letter(atom: &[u8]) -> bool
    ensures { result ≡ starts is_letter atom.now }
{
    match atom {
        [first, ..] => is_letter(*first),
        [] => false,
    }
}

fn starts_with_digit(atom: &[u8]) -> bool
    ensures { result ≡ starts is_digit atom.now }
{
    match atom {
        [first, ..] => is_digit(*first),
        [] => false,
    }
}

fn all_digits(atom: &[u8]) -> bool
    ensures { result ≡ list_all is_digit atom.now }
{
    atom.iter().all(|b| is_digit(*b))
}

fn all_symbol_bytes(atom: &[u8]) -> bool
    ensures { result ≡ list_all is_symbol_byte atom.now }
{
    atom.iter().all(|b| is_symbol_byte(*b))
}

fn all_name_bytes(atom: &[u8]) -> bool
    ensures { result ≡ list_all is_name_byte atom.now }
{
    atom.iter().all(|b| is_name_byte(*b))
}

/// Whether two atoms are the same.
pub fn is_same(a: &[u8], b: &[u8]) -> bool
    ensures { result ≡ same_bytes a.now b.now }
{
    a == b
}

/// Whether an atom is one or more digits.
pub fn is_digits(atom: &[u8]) -> bool
    ensures { result ≡ is_digits atom.now }
{
    starts_with_digit(atom) && all_digits(atom)
}

/// Whether an atom is a symbol: 1 to 24 letters, digits and `-`, a letter first, and neither T
/// nor F.
pub fn is_symbol(atom: &[u8]) -> bool
    ensures { result ≡ is_symbol atom.now }
{
    starts_with_letter(atom)
        && all_symbol_bytes(atom)
        && atom.len() <= 24
        && !is_same(atom, b"T")
        && !is_same(atom, b"F")
}

/// Whether an atom is the name of a function: 1 to 12 letters and digits, a letter first.
pub fn is_function_name(atom: &[u8]) -> bool
    ensures { result ≡ is_function_name atom.now }
{
    starts_with_letter(atom) && all_name_bytes(atom) && atom.len() <= 12
}

// The digits of a number's atom.
fn digits_of(atom: &[u8]) -> &[u8]
    ensures { result.now ≡ digits_of atom.now }
{
    match atom {
        [b'-', digits @ ..] => digits,
        _ => atom,
    }
}

/// Whether an atom is a number: digits, with or without a `-` before them.
pub fn is_number(atom: &[u8]) -> bool
    ensures { result ≡ is_number atom.now }
{
    is_digits(digits_of(atom))
}

// Digits without their leading zeros.
fn without_zeros(digits: &[u8]) -> &[u8]
    ensures { result.now ≡ without_zeros digits.now }
{
    let mut rest = digits;
    while let [b'0', more @ ..] = rest {
        rest = more;
    }
    rest
}

/// Whether digits are more than 18 after their leading zeros.
pub fn is_long(digits: &[u8]) -> bool
    ensures { result ≡ is_long digits.now }
{
    without_zeros(digits).len() > 18
}

#[tactic(auto, using(crate::proofs::Digits::figures_spell))]
/// The number that digits spell, where they are at most 18 after their leading zeros.
pub fn spelled(digits: &[u8]) -> u64
    requires digits { is_digits digits.now ≡ true }
    requires short { is_long digits.now ≡ false }
    ensures value { result ≡ spelled digits.now }
    ensures small { result < 10 ^ 18 }
{
    let figures = without_zeros(digits);
    let mut n = 0;
    for b in figures {
        n = n * 10 + (*b - b'0') as u64;
    }
    n
}

/// The number of a number's atom: `BigNumber` where its digits are more than 18 after their
/// leading zeros.
pub fn number(atom: &[u8]) -> Result<i128, ReadFault>
    requires { is_number atom.now ≡ true }
    ensures ok { IfOk result (λ z. (is_long (digits_of atom.now) ≡ false) × (z ≡ number_of atom.now)) }
    ensures err { IfErr result (λ f. (is_long (digits_of atom.now) ≡ true) × (f ≡ ReadFault.BigNumber)) }
{
    let digits = digits_of(atom);
    if is_long(digits) {
        return Err(ReadFault::BigNumber);
    }
    let size = spelled(digits) as i128;
    match atom {
        [b'-', ..] => Ok(-size),
        _ => Ok(size),
    }
}
