// The numbers of a DO.
ghost use Rattle.std.specs.Prelude.{◌≡◌, ◌+ℤ◌, ◌-ℤ◌, int_le};
ghost use Rattle.formula.specs.Values.{is_between};
ghost use Rattle.fort_model.specs.Cells.{num};
ghost use Rattle.run_held.specs.Sums.{ranged_to};
ghost use Rattle.run_intrinsics.specs.Loops.{StartsAreExact, begun_to, counted_to};

use fort_model::Bounds;
use fort_syntax::{Dialect, Kind};
use run_held::{Held, ranged};

/// A DO begins in the model as is defined here. It does nothing.
pub fn starts_are_exact()
    ensures { StartsAreExact }
{}

/// A sum of two values, which the test of a DO takes.
pub fn summed(bounds: Bounds, left: &Held, right: &Held) -> Result<Held, Kind>
    ensures { result ≡ ranged_to bounds (num left.now +ℤ num right.now) }
{
    ranged(bounds, i128::from(left.num()) + i128::from(right.num()))
}

/// Whether a number is one of the processor's integers.
fn is_within(bounds: Bounds, number: i128) -> bool
    ensures { result ≡ is_between bounds.least bounds.greatest number }
{
    i128::from(bounds.least) <= number && number <= i128::from(bounds.greatest)
}

/// Whether the difference of two numbers is one of the processor's integers.
fn spans(bounds: Bounds, first: i64, last: i64) -> bool
    ensures { result ≡ is_between bounds.least bounds.greatest (last -ℤ first) }
{
    is_within(bounds, i128::from(last) - i128::from(first))
}

/// The same of the difference and a number more.
fn spans_beyond(bounds: Bounds, first: i64, last: i64, by: i64) -> bool
    ensures { result ≡ is_between bounds.least bounds.greatest (last -ℤ first +ℤ by) }
{
    is_within(
        bounds,
        i128::from(last) - i128::from(first) + i128::from(by),
    )
}

/// Whether a number is not beyond another.
fn is_up_to(first: i64, last: i64) -> bool
    ensures { result ≡ int_le first last }
{
    first <= last
}

/// Whether a DO that may be passed over is entered, where its numbers are in range.
fn counted(bounds: Bounds, first: i64, last: i64, by: i64) -> Result<bool, Kind>
    ensures { result ≡ counted_to bounds first last by }
{
    if !spans(bounds, first, last) {
        return Err(Kind::RangeCheck);
    }
    if !spans_beyond(bounds, first, last, by) {
        return Err(Kind::RangeCheck);
    }
    Ok(is_up_to(first, last))
}

/// Whether a DO is entered by its first value, last value and step, or the kind of the error.
pub fn begun(dialect: Dialect, bounds: Bounds, first: i64, last: i64, by: i64) -> Result<bool, Kind>
    ensures { result ≡ begun_to dialect bounds first last by }
{
    match dialect {
        Dialect::Common => {
            if 1 <= first && first <= last && 1 <= by {
                Ok(true)
            } else {
                Err(Kind::LoopCheck)
            }
        }
        Dialect::SeventySeven => {
            if by < 1 {
                return Err(Kind::LoopCheck);
            }
            counted(bounds, first, last, by)
        }
    }
}
