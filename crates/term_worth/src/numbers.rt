// Arithmetic on numbers of any size that a word of 128 bits has, kept from -2^120 to 2^120.
ghost use Rattle.std.specs.Prelude.{◌≡◌};
ghost use Rattle.formula.specs.declared.function.BuiltIn.TheVariants.{Negative, Absolute, Remainder, Quotient};
ghost use Rattle.term_worth.specs.Ranges.{in_range, of_number, of_numbers};

use formula::BuiltIn;

/// The greatest number that an evaluation goes on with; the least is its opposite.
const LIMIT: i128 = 1 << 120;

/// The number, where it is within the limits.
#[inline(always)]
pub(crate) fn ranged(n: i128) -> Option<i128>
    ensures { result ≡ in_range n }
{
    if n >= -LIMIT && n <= LIMIT {
        Some(n)
    } else {
        None
    }
}

/// The number that a built-in function makes of two numbers, where it is within the limits; 0 of a
/// function that makes no number of them.
pub(crate) fn combine(f: BuiltIn, a: i128, b: i128) -> Option<i128>
    ensures { result ≡ in_range (of_numbers f a b) }
{
    match f {
        BuiltIn::Plus => ranged(a.checked_add(b)?),
        BuiltIn::Difference => ranged(a.checked_sub(b)?),
        BuiltIn::Times => ranged(a.checked_mul(b)?),
        BuiltIn::Quotient => quotient(a, b),
        BuiltIn::Remainder => remainder(a, b),
        BuiltIn::Maximum => ranged(if a < b { b } else { a }),
        BuiltIn::Minimum => ranged(if b < a { b } else { a }),
        _ => Some(0),
    }
}

/// The quotient, cut towards 0; 0 by a divisor 0.
fn quotient(a: i128, b: i128) -> Option<i128>
    ensures { result ≡ in_range (of_numbers Quotient a b) }
{
    if b == 0 {
        return Some(0);
    }
    ranged(a.checked_div(b)?)
}

/// What the quotient leaves of a number.
fn remainder(a: i128, b: i128) -> Option<i128>
    ensures { result ≡ in_range (of_numbers Remainder a b) }
{
    match b {
        0 => ranged(a),
        -1 => Some(0),
        _ => ranged(a % b),
    }
}

/// The opposite of a number, where it is within the limits.
pub(crate) fn negate(a: i128) -> Option<i128>
    ensures { result ≡ in_range (of_number Negative a) }
{
    ranged(a.checked_neg()?)
}

/// A number without its sign, where it is within the limits.
pub(crate) fn absolute(a: i128) -> Option<i128>
    ensures { result ≡ in_range (of_number Absolute a) }
{
    ranged(a.checked_abs()?)
}
