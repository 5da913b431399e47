// The integers that each processor has.
ghost use Rattle.std.specs.Prelude.{◌≡◌, neg_ℤ, pos, IfOk};
ghost use Rattle.formula.specs.Pool.{Grows, IsIn, tree_of};
ghost use Rattle.formula.specs.Tree.{num};
ghost use Rattle.formula.specs.declared.function.BuiltIn.TheVariants.{AtMost};
ghost use Rattle.fort_model.specs.Senses as senses;
ghost use Rattle.fort_model.specs.Senses.{make2, of_terms};
ghost use Rattle.note_terms.specs.Stated.{Makes, facts_of_bound};

use edge_io::NoMemory;
use formula::{BuiltIn, TermId, TermPool};
use std::alloc::Global;
use walk_terms::{greatest_integer, least_integer, natural, negative};

/// The least integer is at most the bound with its sign turned round.
fn low_bound(pool: &mut TermPool, bound: u64) -> Result<TermId, NoMemory>
    ensures grows { Grows pool.old pool.new }
    ensures is_in { IfOk result (λ id. IsIn pool.new id) }
    ensures tree { IfOk result (λ id. tree_of pool.new id ≡ make2 of_terms AtMost
        (senses.least_integer of_terms) (num (neg_ℤ (pos bound)))) }
{
    let least = least_integer(pool)?;
    let low = negative(pool, bound)?;
    let fact = pool.binary(BuiltIn::AtMost, least, low)?;
    Ok(fact)
}

/// The bound is at most the greatest integer.
fn high_bound(pool: &mut TermPool, bound: u64) -> Result<TermId, NoMemory>
    ensures grows { Grows pool.old pool.new }
    ensures is_in { IfOk result (λ id. IsIn pool.new id) }
    ensures tree { IfOk result (λ id. tree_of pool.new id ≡ make2 of_terms AtMost
        (senses.natural of_terms bound) (senses.greatest_integer of_terms)) }
{
    let high = natural(pool, bound)?;
    let greatest = greatest_integer(pool)?;
    let fact = pool.binary(BuiltIn::AtMost, high, greatest)?;
    Ok(fact)
}

/// The processor has the integers up to the bound.
pub fn bound_facts(alloc: Global, pool: &mut TermPool, bound: u64) -> Result<Vec<TermId>, NoMemory>
    ensures { IfOk result (λ terms. Makes pool.old pool.new terms.items (facts_of_bound bound)) }
{
    let low = low_bound(pool, bound)?;
    let high = high_bound(pool, bound)?;
    let mut terms = Vec::new(alloc);
    terms.push(low)?;
    terms.push(high)?;
    Ok(terms)
}
