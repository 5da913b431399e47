// Dimensions, and the products of them.
ghost use Rattle.std.specs.Prelude.{◌≡◌, IfOk};
ghost use Rattle.formula.specs.Pool.{Grows, IsIn, tree_of};
ghost use Rattle.fort_model.specs.Senses.{of_terms};
ghost use Rattle.fort_model.specs.WalkPlaces as walks;
ghost use Rattle.walk_names.specs.Names.{IsNames, named};

use edge_io::NoMemory;
use formula::{BuiltIn, TermId, TermPool};
use fort_syntax::Dim;
use std::alloc::Global;
use walk_names::Names;
use walk_terms::natural;

/// A dimension: a constant, or what its name stands for.
pub fn dim_term(
    alloc: Global,
    pool: &mut TermPool,
    names: &Names,
    dim: Dim,
) -> Result<TermId, NoMemory>
    requires { IsNames pool.old names.now }
    ensures grows { Grows pool.old pool.new }
    ensures is_in { IfOk result (λ id. IsIn pool.new id) }
    ensures tree { IfOk result (λ id. tree_of pool.new id ≡ walks.dim of_terms
        (named pool.old names.now) dim) }
{
    match dim {
        Dim::Fixed(n) => natural(pool, n),
        Dim::Named(name) => names.term(alloc, pool, &name),
    }
}

/// A product, times some dimensions.
fn stretch_from(
    alloc: Global,
    pool: &mut TermPool,
    names: &Names,
    product: TermId,
    dims: &[Dim],
) -> Result<TermId, NoMemory>
    requires kept { IsNames pool.old names.now }
    requires product { IsIn pool.old product }
    ensures grows { Grows pool.old pool.new }
    ensures is_in { IfOk result (λ id. IsIn pool.new id) }
    ensures tree { IfOk result (λ id. tree_of pool.new id ≡ walks.stretch_from of_terms
        (named pool.old names.now) (tree_of pool.old product) dims.now) }
{
    match dims {
        [] => Ok(product),
        [first, rest @ ..] => {
            let dim = dim_term(alloc, pool, names, *first)?;
            let longer = pool.binary(BuiltIn::Times, product, dim)?;
            let whole = stretch_from(alloc, pool, names, longer, rest)?;
            Ok(whole)
        }
    }
}

/// The product of dimensions, from the left.
pub fn stretch(
    alloc: Global,
    pool: &mut TermPool,
    names: &Names,
    dims: &[Dim],
) -> Result<TermId, NoMemory>
    requires { IsNames pool.old names.now }
    ensures grows { Grows pool.old pool.new }
    ensures is_in { IfOk result (λ id. IsIn pool.new id) }
    ensures tree { IfOk result (λ id. tree_of pool.new id ≡ walks.stretch of_terms
        (named pool.old names.now) dims.now) }
{
    match dims {
        [] => natural(pool, 1),
        [first, rest @ ..] => {
            let dim = dim_term(alloc, pool, names, *first)?;
            let whole = stretch_from(alloc, pool, names, dim, rest)?;
            Ok(whole)
        }
    }
}
