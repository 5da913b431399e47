// Functions of terms that need no test of their arguments.
ghost use Rattle.std.specs.Prelude.{◌≡◌, [], ◌∷◌, IfOk};
ghost use Rattle.formula.specs.Pool.{Grows, IsIn, tree_of};
ghost use Rattle.formula.specs.declared.function.BuiltIn.TheVariants as f;
ghost use Rattle.fort_model.specs.Senses as terms;
ghost use Rattle.fort_model.specs.Senses.{of_terms, make1, make2, make3};

use crate::integers::natural;
use edge_io::NoMemory;
use formula::{Args, BuiltIn, Func, TermId, TermPool};

/// (UNDEF)
pub fn undefined(pool: &mut TermPool) -> Result<TermId, NoMemory>
    ensures grows { Grows pool.old pool.new }
    ensures is_in { IfOk result (λ id. IsIn pool.new id) }
    ensures tree { IfOk result (λ id. tree_of pool.new id ≡ terms.undefined of_terms) }
{
    pool.apply(Func::BuiltIn(BuiltIn::Undefined), Args::empty())
}

/// A value is defined.
pub fn defined(pool: &mut TermPool, a: TermId) -> Result<TermId, NoMemory>
    requires { IsIn pool.old a }
    ensures grows { Grows pool.old pool.new }
    ensures is_in { IfOk result (λ id. IsIn pool.new id) }
    ensures tree { IfOk result (λ id. tree_of pool.new id ≡ terms.is_defined of_terms (tree_of pool.old a)) }
{
    pool.unary(BuiltIn::Defined, a)
}

/// The contrary of a condition.
pub fn negated(pool: &mut TermPool, a: TermId) -> Result<TermId, NoMemory>
    requires { IsIn pool.old a }
    ensures grows { Grows pool.old pool.new }
    ensures is_in { IfOk result (λ id. IsIn pool.new id) }
    ensures tree { IfOk result (λ id. tree_of pool.new id ≡ terms.negated of_terms (tree_of pool.old a)) }
{
    pool.unary(BuiltIn::Not, a)
}

/// A divisor is not 0.
pub fn not_zero(pool: &mut TermPool, b: TermId) -> Result<TermId, NoMemory>
    requires { IsIn pool.old b }
    ensures grows { Grows pool.old pool.new }
    ensures is_in { IfOk result (λ id. IsIn pool.new id) }
    ensures tree { IfOk result (λ id. tree_of pool.new id ≡ terms.negated of_terms
        (make2 of_terms f.Equal (tree_of pool.old b) (terms.natural of_terms 0))) }
{
    let zero = natural(pool, 0)?;
    let is_zero = pool.binary(BuiltIn::Equal, b, zero)?;
    let not = negated(pool, is_zero)?;
    Ok(not)
}

/// Both conditions hold.
pub fn both(pool: &mut TermPool, a: TermId, b: TermId) -> Result<TermId, NoMemory>
    requires a { IsIn pool.old a }
    requires b { IsIn pool.old b }
    ensures grows { Grows pool.old pool.new }
    ensures is_in { IfOk result (λ id. IsIn pool.new id) }
    ensures tree { IfOk result (λ id. tree_of pool.new id ≡ make2 of_terms f.And
        (tree_of pool.old a) (tree_of pool.old b)) }
{
    pool.binary(BuiltIn::And, a, b)
}

/// One of two conditions holds.
pub fn choice(pool: &mut TermPool, a: TermId, b: TermId) -> Result<TermId, NoMemory>
    requires a { IsIn pool.old a }
    requires b { IsIn pool.old b }
    ensures grows { Grows pool.old pool.new }
    ensures is_in { IfOk result (λ id. IsIn pool.new id) }
    ensures tree { IfOk result (λ id. tree_of pool.new id ≡ make2 of_terms f.Or (tree_of pool.old a)
        (tree_of pool.old b)) }
{
    pool.binary(BuiltIn::Or, a, b)
}

/// Three conditions hold.
pub fn all_three(pool: &mut TermPool, a: TermId, b: TermId, c: TermId) -> Result<TermId, NoMemory>
    requires a { IsIn pool.old a }
    requires b { IsIn pool.old b }
    requires c { IsIn pool.old c }
    ensures grows { Grows pool.old pool.new }
    ensures is_in { IfOk result (λ id. IsIn pool.new id) }
    ensures tree { IfOk result (λ id. tree_of pool.new id ≡ make3 of_terms f.And
        (tree_of pool.old a) (tree_of pool.old b) (tree_of pool.old c)) }
{
    pool.ternary(BuiltIn::And, a, b, c)
}

/// The element of an array at a place.
pub fn element(pool: &mut TermPool, array: TermId, place: TermId) -> Result<TermId, NoMemory>
    requires array { IsIn pool.old array }
    requires place { IsIn pool.old place }
    ensures grows { Grows pool.old pool.new }
    ensures is_in { IfOk result (λ id. IsIn pool.new id) }
    ensures tree { IfOk result (λ id. tree_of pool.new id ≡ make2 of_terms f.Element
        (tree_of pool.old array) (tree_of pool.old place)) }
{
    pool.binary(BuiltIn::Element, array, place)
}

/// An array with a value at a place.
pub fn put(
    pool: &mut TermPool,
    array: TermId,
    place: TermId,
    value: TermId,
) -> Result<TermId, NoMemory>
    requires array { IsIn pool.old array }
    requires place { IsIn pool.old place }
    requires value { IsIn pool.old value }
    ensures grows { Grows pool.old pool.new }
    ensures is_in { IfOk result (λ id. IsIn pool.new id) }
    ensures tree { IfOk result (λ id. tree_of pool.new id ≡ make3 of_terms f.Put
        (tree_of pool.old array) (tree_of pool.old place) (tree_of pool.old value)) }
{
    pool.ternary(BuiltIn::Put, array, place, value)
}
