// Intrinsic functions.
ghost use Rattle.std.specs.Prelude.{◌≡◌};
ghost use Rattle.formula.specs.Values.{absolute, greater, remainder, smaller};
ghost use Rattle.fort_model.specs.Cells.{num};
ghost use Rattle.run_held.specs.Sums.{ranged_to};
ghost use Rattle.run_intrinsics.specs.Intrinsics.{IntrinsicsAreExact, modulo_to};

use fort_model::Bounds;
use fort_syntax::{BinOp, Kind};
use run_held::{Held, operated, ranged};

/// The model's intrinsic functions come to what is defined here for the processor's integers. It
/// does nothing.
pub fn intrinsics_are_exact()
    ensures { IntrinsicsAreExact }
{}

/// A number without its sign.
pub fn absolute(bounds: Bounds, value: &Held) -> Result<Held, Kind>
    ensures { result ≡ ranged_to bounds (absolute (num value.now)) }
{
    let number = i128::from(value.num());
    if number < 0 {
        ranged(bounds, -number)
    } else {
        ranged(bounds, number)
    }
}

/// What a division of two numbers leaves.
fn left_over(a: i64, b: i64) -> i64
    ensures { result ≡ remainder a b }
{
    match b {
        0 => a,
        -1 => 0,
        _ => a % b,
    }
}

/// What a division leaves.
pub fn modulo(bounds: Bounds, left: &Held, right: &Held) -> Result<Held, Kind>
    ensures { result ≡ modulo_to bounds left.now right.now }
{
    match operated(bounds, BinOp::Div, left, right) {
        Ok(_) => Ok(Held::int(left_over(left.num(), right.num()))),
        Err(kind) => Err(kind),
    }
}

/// The greater of two numbers.
pub fn greater(a: i64, b: i64) -> i64
    ensures { result ≡ greater a b }
{
    if a < b { b } else { a }
}

/// The smaller of two numbers.
pub fn smaller(a: i64, b: i64) -> i64
    ensures { result ≡ smaller a b }
{
    if b < a { b } else { a }
}
