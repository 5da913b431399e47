// What operators make of values.
ghost use Rattle.std.specs.Prelude.{◌≡◌, neg_ℤ, ◌+ℤ◌, ◌-ℤ◌, ◌*ℤ◌};
ghost use Rattle.formula.specs.Values.{quotient};
ghost use Rattle.fort_model.specs.Cells.{compares, num};
ghost use Rattle.fort_syntax.specs.declared.dialect.BinOp.TheVariants as op;
ghost use Rattle.run_held.specs.Sums.{SumsAreExact, constant_to, operated_to, power_to, power_to_on, ranged_to};

use crate::held::Held;
use fort_model::Bounds;
use fort_syntax::{BinOp, Kind, RelOp};

/// The parts of the model that read values come to what is defined here for the processor's
/// integers. It does nothing.
pub fn sums_are_exact()
    ensures { SumsAreExact }
{}

/// A number as a cell, where it is one of the processor's integers.
pub fn ranged(bounds: Bounds, number: i128) -> Result<Held, Kind>
    ensures { result ≡ ranged_to bounds number }
{
    if number < i128::from(bounds.least) || number > i128::from(bounds.greatest) {
        return Err(Kind::RangeCheck);
    }
    Ok(Held::int(number as i64))
}

/// A constant as a cell, where it is not beyond the processor's integers.
pub fn constant(bounds: Bounds, number: u64) -> Result<Held, Kind>
    ensures { result ≡ constant_to bounds number }
{
    if i128::from(number) > i128::from(bounds.greatest) {
        return Err(Kind::RangeCheck);
    }
    Ok(Held::int(number as i64))
}

/// A number with the other sign.
pub fn negated(bounds: Bounds, value: &Held) -> Result<Held, Kind>
    ensures { result ≡ ranged_to bounds (neg_ℤ (num value.now)) }
{
    ranged(bounds, -i128::from(value.num()))
}

/// A sum.
fn added(bounds: Bounds, a: i64, b: i64) -> Result<Held, Kind>
    ensures { result ≡ ranged_to bounds (a +ℤ b) }
{
    ranged(bounds, i128::from(a) + i128::from(b))
}

/// A difference.
fn taken_off(bounds: Bounds, a: i64, b: i64) -> Result<Held, Kind>
    ensures { result ≡ ranged_to bounds (a -ℤ b) }
{
    ranged(bounds, i128::from(a) - i128::from(b))
}

/// A product.
fn multiplied(bounds: Bounds, a: i64, b: i64) -> Result<Held, Kind>
    ensures { result ≡ ranged_to bounds (a *ℤ b) }
{
    match i128::from(a).checked_mul(i128::from(b)) {
        Some(product) => ranged(bounds, product),
        None => Err(Kind::RangeCheck),
    }
}

/// A quotient, which is cut towards zero, and is 0 where the divisor is.
fn cut(bounds: Bounds, a: i64, b: i64) -> Result<Held, Kind>
    ensures { result ≡ ranged_to bounds (quotient a b) }
{
    let divisor = i128::from(b);
    if divisor == 0 {
        return ranged(bounds, 0);
    }
    match i128::from(a).checked_div(divisor) {
        Some(whole) => ranged(bounds, whole),
        None => Err(Kind::RangeCheck),
    }
}

/// A quotient of two values.
fn divided(bounds: Bounds, left: &Held, right: &Held) -> Result<Held, Kind>
    ensures { result ≡ operated_to bounds op.Div left.now right.now }
{
    if right.is_same(&Held::int(0)) {
        return Err(Kind::DivisorCheck);
    }
    cut(bounds, left.num(), right.num())
}

/// What an operator makes of two values.
pub fn operated(bounds: Bounds, sign: BinOp, left: &Held, right: &Held) -> Result<Held, Kind>
    ensures { result ≡ operated_to bounds sign left.now right.now }
{
    match sign {
        BinOp::Add => added(bounds, left.num(), right.num()),
        BinOp::Sub => taken_off(bounds, left.num(), right.num()),
        BinOp::Mul => multiplied(bounds, left.num(), right.num()),
        BinOp::Div => divided(bounds, left, right),
    }
}

/// What a relation says of two values.
pub fn compared(sign: RelOp, left: &Held, right: &Held) -> bool
    ensures { result ≡ compares sign left.now right.now }
{
    match sign {
        RelOp::Lt => left.num() < right.num(),
        RelOp::Le => left.num() <= right.num(),
        RelOp::Eq => left.is_same(right),
        RelOp::Ne => !left.is_same(right),
        RelOp::Ge => right.num() <= left.num(),
        RelOp::Gt => right.num() < left.num(),
    }
}

/// A product times a base so many times more, where each product is in range.
fn power_on(bounds: Bounds, base: i64, more: u8, product: i64) -> Result<Held, Kind>
    ensures { result ≡ power_to_on bounds base more product }
{
    if more == 0 {
        return Ok(Held::int(product));
    }
    match multiplied(bounds, product, base) {
        Ok(next) => power_on(bounds, base, more - 1, next.num()),
        Err(kind) => Err(kind),
    }
}

/// A power: a product of the base with itself, from the left.
pub fn power(bounds: Bounds, base: &Held, exponent: u8) -> Result<Held, Kind>
    ensures { result ≡ power_to bounds (num base.now) exponent }
{
    let number = base.num();
    power_on(bounds, number, exponent.saturating_sub(1), number)
}
