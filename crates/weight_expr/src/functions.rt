// Intrinsic functions of weights, and what a name before a bracket is.
ghost use Rattle.std.specs.Prelude.{◌≡◌, [], take};
ghost use Rattle.formula.specs.Atoms.{same_bytes};
ghost use Rattle.fort_syntax.specs.Names as text;
ghost use Rattle.weight_caps.specs.Loads.{with_tests};
ghost use Rattle.weight_caps.specs.declared.loads.Load.{Load};
ghost use Rattle.weight_expr.specs.Applied.{is_applied, meaning};
ghost use Rattle.weight_tallies.specs.Tallies as tally;

use crate::operations::{next, pair, read};
use call_sites::Book;
use fort_syntax::Name;
use weight_caps::{Load, sum_of};

/// An intrinsic function: IABS, MOD, MAX0 or MIN0.
#[derive(Clone, Copy, Debug)]
pub(crate) enum Function {
    Absolute,
    Modulo,
    Greatest,
    Least,
}

/// What a name before a bracket is: an array with so many dimensions, an intrinsic function, or a
/// FUNCTION of the deck.
#[derive(Clone, Copy, Debug)]
pub(crate) enum Bracketed {
    Element(usize),
    BuiltIn(Function),
    Reference,
}

/// Whether a name is a word.
fn is_word(name: &Name, word: &[u8]) -> bool
    ensures { result ≡ same_bytes name.now word.now }
{
    name.as_bytes() == word
}

/// What a name before a bracket is where it is no array.
fn function_of(name: &Name) -> Bracketed
    ensures { is_applied (text.applied_by [] (text.intrinsic name.now)) result }
{
    if is_word(name, b"IABS") {
        return Bracketed::BuiltIn(Function::Absolute);
    }
    if is_word(name, b"MOD") {
        return Bracketed::BuiltIn(Function::Modulo);
    }
    if is_word(name, b"MAX0") {
        return Bracketed::BuiltIn(Function::Greatest);
    }
    if is_word(name, b"MIN0") {
        return Bracketed::BuiltIn(Function::Least);
    }
    Bracketed::Reference
}

/// What a name before a bracket is in a unit.
pub(crate) fn applied(book: &Book, name: &Name) -> Bracketed
    ensures { is_applied (text.applied book.now.unit.now name.now) result }
{
    let dims = book.dims(name);
    if dims.is_empty() {
        return function_of(name);
    }
    Bracketed::Element(dims.len())
}

/// An intrinsic function of one weight, IABS; of any other number it weighs 1.
fn absolute(load: &mut Load, weights: &[u32]) -> u32
    ensures load { load.new ≡ (tally.intrinsic_weight text.Absolute weights.now load.old).load }
    ensures value { result ≡ (tally.intrinsic_weight text.Absolute weights.now load.old).value }
{
    let [a] = weights else {
        return 1;
    };
    read(load, next(*a))
}

/// MOD of two weights; of any other number it weighs 1.
fn modulo(load: &mut Load, weights: &[u32]) -> u32
    ensures load { load.new ≡ (tally.intrinsic_weight text.Modulo weights.now load.old).load }
    ensures value { result ≡ (tally.intrinsic_weight text.Modulo weights.now load.old).value }
{
    let [a, b] = weights else {
        return 1;
    };
    load.test(*b);
    read(load, pair(*a, *b))
}

/// MAX0 or MIN0 of one weight or more; of none it weighs 1.
fn greatest(weights: &[u32]) -> u32
    ensures { (load : Load) → (tally.intrinsic_weight text.Greatest weights.now load
        ≡ record { value = result; load = load })
        × (tally.intrinsic_weight text.Least weights.now load
        ≡ record { value = result; load = load }) }
{
    if weights.is_empty() {
        return 1;
    }
    next(sum_of(weights))
}

/// An intrinsic function of some weights.
pub(crate) fn intrinsic_weight(load: &mut Load, function: Function, weights: &[u32]) -> u32
    ensures load { load.new ≡ (tally.intrinsic_weight (meaning function) weights.now load.old).load }
    ensures value { result ≡ (tally.intrinsic_weight (meaning function) weights.now load.old).value }
{
    match function {
        Function::Absolute => absolute(load, weights),
        Function::Modulo => modulo(load, weights),
        Function::Greatest => greatest(weights),
        Function::Least => greatest(weights),
    }
}

/// The subscripts that have a dimension are tested.
pub fn test_subscripts(load: &mut Load, subscripts: &[u32], dims: usize)
    ensures { load.new ≡ with_tests load.old (take dims subscripts.now) }
{
    let count = subscripts.len().min(dims);
    load.test_all(&subscripts[..count]);
}
