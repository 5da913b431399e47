// Dimensions at the entry.
ghost use Rattle.std.specs.Prelude.{◌≡◌, IfOk};
ghost use Rattle.formula.specs.Pool.{Grows, IsIn, tree_of};
ghost use Rattle.note_terms.specs.Stated.{Makes};
ghost use Rattle.walk_names.specs.Names.{IsNames, named};
ghost use Rattle.start_terms.specs.Starts.{at_least_1, facts_of_dims};

use edge_io::NoMemory;
use formula::{BuiltIn, TermId, TermPool};
use fort_syntax::Name;
use std::alloc::Global;
use walk_names::Names;
use walk_terms::{defined, natural};

/// A number is 1 or more.
fn at_least_one(pool: &mut TermPool, number: TermId) -> Result<TermId, NoMemory>
    requires { IsIn pool.old number }
    ensures grows { Grows pool.old pool.new }
    ensures is_in { IfOk result (λ id. IsIn pool.new id) }
    ensures tree { IfOk result (λ id. tree_of pool.new id ≡ at_least_1 (tree_of pool.old number)) }
{
    let one = natural(pool, 1)?;
    let fact = pool.binary(BuiltIn::AtMost, one, number)?;
    Ok(fact)
}

/// Of each of some names: that what it stands for is defined, and at least 1.
pub fn dim_terms(
    alloc: Global,
    pool: &mut TermPool,
    names: &Names,
    dims: &[Name],
) -> Result<Vec<TermId>, NoMemory>
    requires { IsNames pool.old names.now }
    ensures { IfOk result (λ terms. Makes pool.old pool.new terms.items
        (facts_of_dims (named pool.old names.now) dims.now)) }
{
    let mut terms = Vec::new(alloc);
    for name in dims {
        let value = names.term(alloc, pool, name)?;
        let is_defined = defined(pool, value)?;
        terms.push(is_defined)?;
        let is_positive = at_least_one(pool, value)?;
        terms.push(is_positive)?;
    }
    Ok(terms)
}
