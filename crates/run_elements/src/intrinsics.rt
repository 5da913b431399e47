// Intrinsic functions of values on the stack.
ghost use Rattle.std.specs.Prelude.{◌≡◌, [], ◌<◌, Result};
ghost use Rattle.run_state.specs.Deeds.{newest_in, values_in};
ghost use Rattle.fort_syntax.specs.Names.{Absolute, Modulo};
ghost use Rattle.run_shapes.specs.Seen.{intrinsic_of};
ghost use Rattle.run_intrinsics.specs.Intrinsics.{intrinsic_to};
ghost use Rattle.run_elements.specs.Elements.{better, extreme_to, folded_all};

use crate::reading::value_at;
use fort_model::Bounds;
use fort_syntax::Kind;
use run_held::Held;
use run_intrinsics::{absolute, greater, modulo, smaller};
use run_rooms::Stack;
use run_shapes::Function;
use run_state::Item;

/// The smaller or the greater of two numbers.
fn better(least: bool, a: i64, b: i64) -> i64
    ensures { result ≡ better least a b }
{
    if least { smaller(a, b) } else { greater(a, b) }
}

/// The smallest or the greatest of the newest so many values.
fn best(values: &Stack<Item>, least: bool, count: usize) -> i64
    requires { 0 < count }
    ensures { result ≡ folded_all (better least) (values_in (newest_in count values.now.items [])) }
{
    let mut depth = count - 1;
    let mut number = value_at(values, depth).num();
    while depth > 0 {
        depth -= 1;
        number = better(least, number, value_at(values, depth).num());
    }
    number
}

/// The smallest or the greatest of the newest so many values; nothing where there are none.
#[tactic(auto, using(crate::proofs::Counts::extreme_is, crate::proofs::Counts::no_extreme))]
fn extreme(values: &Stack<Item>, least: bool, count: usize) -> Held
    ensures { result ≡ extreme_to least (values_in (newest_in count values.now.items [])) }
{
    if count == 0 {
        return Held::undefined();
    }
    Held::int(best(values, least, count))
}

/// `IABS` of the newest so many values.
#[tactic(auto, using(crate::proofs::Counts::no_absolute))]
fn absolute_of(values: &Stack<Item>, bounds: Bounds, count: usize) -> Result<Held, Kind>
    ensures { result ≡ intrinsic_to bounds Absolute (values_in (newest_in count values.now.items [])) }
{
    if count != 1 {
        return Ok(Held::undefined());
    }
    absolute(bounds, &value_at(values, 0))
}

/// `MOD` of the newest so many values.
#[tactic(auto, using(crate::proofs::Counts::no_modulo))]
fn modulo_of(values: &Stack<Item>, bounds: Bounds, count: usize) -> Result<Held, Kind>
    ensures { result ≡ intrinsic_to bounds Modulo (values_in (newest_in count values.now.items [])) }
{
    if count != 2 {
        return Ok(Held::undefined());
    }
    modulo(bounds, &value_at(values, 1), &value_at(values, 0))
}

/// An intrinsic function of the newest so many values.
#[tactic(auto, using(crate::proofs::Counts::greatest_is, crate::proofs::Counts::least_is))]
pub fn intrinsic(
    values: &Stack<Item>,
    bounds: Bounds,
    function: Function,
    count: usize,
) -> Result<Held, Kind>
    ensures { result ≡ intrinsic_to bounds (intrinsic_of function)
        (values_in (newest_in count values.now.items [])) }
{
    match function {
        Function::Absolute => absolute_of(values, bounds, count),
        Function::Modulo => modulo_of(values, bounds, count),
        Function::Greatest => Ok(extreme(values, false, count)),
        Function::Least => Ok(extreme(values, true, count)),
    }
}
