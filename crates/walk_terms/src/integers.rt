// Numbers, and the integers of a processor.
ghost use Rattle.std.specs.Prelude.{◌≡◌, pos, neg_ℤ, IfOk};
ghost use Rattle.formula.specs.Pool.{Grows, IsIn, tree_of};
ghost use Rattle.formula.specs.Tree.{num};
ghost use Rattle.formula.specs.declared.function.BuiltIn.TheVariants.{AtMost};
ghost use Rattle.fort_model.specs.Senses as terms;
ghost use Rattle.fort_model.specs.Senses.{of_terms, make2, lies_from_to};

use edge_io::NoMemory;
use formula::{BuiltIn, TermId, TermPool, Word};

/// The term of a natural number.
pub fn natural(pool: &mut TermPool, n: u64) -> Result<TermId, NoMemory>
    ensures grows { Grows pool.old pool.new }
    ensures is_in { IfOk result (λ id. IsIn pool.new id) }
    ensures tree { IfOk result (λ id. tree_of pool.new id ≡ terms.natural of_terms n) }
{
    pool.number(i128::from(n))
}

/// The term of a natural number with the sign turned round.
pub fn negative(pool: &mut TermPool, n: u64) -> Result<TermId, NoMemory>
    ensures grows { Grows pool.old pool.new }
    ensures is_in { IfOk result (λ id. IsIn pool.new id) }
    ensures tree { IfOk result (λ id. tree_of pool.new id ≡ num (neg_ℤ (pos n))) }
{
    pool.number(-i128::from(n))
}

/// LEAST, the least integer of the processor.
pub fn least_integer(pool: &mut TermPool) -> Result<TermId, NoMemory>
    ensures grows { Grows pool.old pool.new }
    ensures is_in { IfOk result (λ id. IsIn pool.new id) }
    ensures tree { IfOk result (λ id. tree_of pool.new id ≡ terms.least_integer of_terms) }
{
    let Some(word) = Word::new(b"LEAST") else {
        unreachable!()
    };
    pool.symbol(word)
}

/// GREATEST, the greatest integer of the processor.
pub fn greatest_integer(pool: &mut TermPool) -> Result<TermId, NoMemory>
    ensures grows { Grows pool.old pool.new }
    ensures is_in { IfOk result (λ id. IsIn pool.new id) }
    ensures tree { IfOk result (λ id. tree_of pool.new id ≡ terms.greatest_integer of_terms) }
{
    let Some(word) = Word::new(b"GREATEST") else {
        unreachable!()
    };
    pool.symbol(word)
}

/// A number lies from `low` to `high`.
pub fn between(
    pool: &mut TermPool,
    low: TermId,
    number: TermId,
    high: TermId,
) -> Result<TermId, NoMemory>
    requires low { IsIn pool.old low }
    requires number { IsIn pool.old number }
    requires high { IsIn pool.old high }
    ensures grows { Grows pool.old pool.new }
    ensures is_in { IfOk result (λ id. IsIn pool.new id) }
    ensures tree { IfOk result (λ id. tree_of pool.new id ≡ lies_from_to of_terms
        (tree_of pool.old low) (tree_of pool.old high) (tree_of pool.old number)) }
{
    let first = pool.binary(BuiltIn::AtMost, low, number)?;
    let second = pool.binary(BuiltIn::AtMost, number, high)?;
    let both = pool.binary(BuiltIn::And, first, second)?;
    Ok(both)
}

/// A number is one of the processor's integers.
pub fn in_range(pool: &mut TermPool, number: TermId) -> Result<TermId, NoMemory>
    requires { IsIn pool.old number }
    ensures grows { Grows pool.old pool.new }
    ensures is_in { IfOk result (λ id. IsIn pool.new id) }
    ensures tree { IfOk result (λ id. tree_of pool.new id ≡ terms.in_range of_terms
        (tree_of pool.old number)) }
{
    let least = least_integer(pool)?;
    let greatest = greatest_integer(pool)?;
    let within = between(pool, least, number, greatest)?;
    Ok(within)
}

/// A number is 0 or more.
pub fn not_negative(pool: &mut TermPool, number: TermId) -> Result<TermId, NoMemory>
    requires { IsIn pool.old number }
    ensures grows { Grows pool.old pool.new }
    ensures is_in { IfOk result (λ id. IsIn pool.new id) }
    ensures tree { IfOk result (λ id. tree_of pool.new id ≡ make2 of_terms AtMost
        (terms.natural of_terms 0) (tree_of pool.old number)) }
{
    let zero = natural(pool, 0)?;
    let at_least = pool.binary(BuiltIn::AtMost, zero, number)?;
    Ok(at_least)
}
