// What is read, and what operators do.
ghost use Rattle.std.specs.Prelude.{◌≡◌};
ghost use Rattle.weight_caps.specs.Loads.{with_test, with_tests};
ghost use Rattle.weight_calls.specs.Operands.{operand_of};
ghost use Rattle.weight_calls.specs.Subjects.{sight_of};
ghost use Rattle.weight_tallies.specs.Tallied.{next, pair};
ghost use Rattle.weight_tallies.specs.Tallies as tally;

use fort_syntax::BinOp;
use weight_calls::{Operand, Subject};
use weight_caps::{Load, plus};

/// A weight and one.
pub(crate) fn next(weight: u32) -> u32
    ensures { result ≡ next weight }
{
    plus(weight, 1)
}

/// Two weights and one.
pub(crate) fn pair(first: u32, second: u32) -> u32
    ensures { result ≡ pair first second }
{
    plus(plus(first, second), 1)
}

/// What has this weight is read: that it is defined is tested.
pub fn read(load: &mut Load, weight: u32) -> u32
    ensures load { load.new ≡ with_test load.old weight }
    ensures value { result ≡ weight }
{
    load.test(weight);
    weight
}

/// An operand is read, if it is not computed.
pub(crate) fn read_operand(load: &mut Load, operand: Operand) -> u32
    ensures load { load.new ≡ (tally.read_operand (operand_of operand) load.old).load }
    ensures value { result ≡ (tally.read_operand (operand_of operand) load.old).value }
{
    match operand {
        Operand::Bare(_, weight) => read(load, weight),
        Operand::Part(weight) => read(load, weight),
        Operand::Computed(weight) => weight,
    }
}

/// A constant: above the bound it is tested.
pub fn constant(subject: &Subject, load: &mut Load, number: u64) -> u32
    ensures load { load.new ≡ (tally.constant (sight_of subject.now) number load.old).load }
    ensures value { result ≡ (tally.constant (sight_of subject.now) number load.old).value }
{
    if subject.scene.bound < number {
        load.test(1);
    }
    1
}

/// An operator on two weights.
pub(crate) fn operate(load: &mut Load, operator: BinOp, first: u32, second: u32) -> u32
    ensures load { load.new ≡ (tally.operate operator first second load.old).load }
    ensures value { result ≡ (tally.operate operator first second load.old).value }
{
    if let BinOp::Div = operator {
        load.test(second);
    }
    read(load, pair(first, second))
}

/// A product with some factors more of a base.
fn power_from(load: &mut Load, base: u32, product: u32, others: u8) -> u32
    ensures load { load.new ≡ (tally.power_from base product others load.old).load }
    ensures value { result ≡ (tally.power_from base product others load.old).value }
{
    let mut product = product;
    for _ in 0..others {
        product = plus(product, next(base));
        load.test(product);
    }
    product
}

/// A power of what has this weight.
pub(crate) fn power(load: &mut Load, base: u32, exponent: u8) -> u32
    ensures load { load.new ≡ (tally.power base exponent load.old).load }
    ensures value { result ≡ (tally.power base exponent load.old).value }
{
    let others = exponent.saturating_sub(1);
    power_from(load, base, next(base), others)
}
