// Numbers of elements.
ghost use Rattle.std.specs.Prelude.{◌≡◌, ◌≤◌, ◌*◌, ℕ, Some, option_map, IsSome, IfOk, IfSome};
ghost use Rattle.formula.specs.Pool.{Grows, IsIn, tree_of};
ghost use Rattle.fort_model.specs.Senses.{of_terms};
ghost use Rattle.fort_model.specs.WalkPlaces as walks;
ghost use Rattle.walk_names.specs.Names.{IsNames, named};
ghost use Rattle.walk_places.specs.Shapes.{IsGoodShape};

use crate::dims::stretch;
use edge_io::NoMemory;
use formula::{BuiltIn, TermId, TermPool};
use fort_syntax::Dim;
use std::alloc::Global;
use walk_names::Names;
use walk_terms::{natural, undefined};

/// A number times another one, where there is another one.
fn times(n: u64, more: Option<u64>) -> Option<u64>
    requires { (m : ℕ) → more ≡ Some m → n * m ≤ 1000000 }
    ensures value { result ≡ option_map (λ m. n * m) more }
    ensures small { IfSome result (λ m. m ≤ 1000000) }
{
    match more {
        Some(m) => Some(n * m),
        None => None,
    }
}

/// The product of dimensions that are all constants.
pub fn fixed_size(dims: &[Dim]) -> Option<u64>
    requires { IsGoodShape dims.now }
    ensures value { result ≡ walks.size_if_fixed dims.now }
    ensures small { IfSome result (λ n. n ≤ 1000000) }
{
    let [first, rest @ ..] = dims else {
        return Some(1);
    };
    let more = fixed_size(rest);
    match first {
        Dim::Fixed(n) => times(*n, more),
        Dim::Named(_) => None,
    }
}

/// The number of elements of an array: one number where all dimensions are constants.
pub fn size(
    alloc: Global,
    pool: &mut TermPool,
    names: &Names,
    dims: &[Dim],
) -> Result<TermId, NoMemory>
    requires kept { IsNames pool.old names.now }
    requires shape { IsGoodShape dims.now }
    ensures grows { Grows pool.old pool.new }
    ensures is_in { IfOk result (λ id. IsIn pool.new id) }
    ensures tree { IfOk result (λ id. tree_of pool.new id ≡ walks.size of_terms
        (named pool.old names.now) dims.now) }
{
    match fixed_size(dims) {
        Some(n) => natural(pool, n),
        None => stretch(alloc, pool, names, dims),
    }
}

/// What a name with these dimensions, which are constants, stands for where it got new cells:
/// undefined, or so many undefined cells.
pub fn blank(pool: &mut TermPool, names: &Names, dims: &[Dim]) -> Result<TermId, NoMemory>
    requires shape { IsGoodShape dims.now }
    requires fixed { IsSome (walks.size_if_fixed dims.now) }
    ensures grows { Grows pool.old pool.new }
    ensures is_in { IfOk result (λ id. IsIn pool.new id) }
    ensures tree { IfOk result (λ id. tree_of pool.new id ≡ walks.blank_by of_terms
        (named pool.old names.now) dims.now) }
{
    if dims.is_empty() {
        return undefined(pool);
    }
    let Some(n) = fixed_size(dims) else {
        unreachable!()
    };
    let count = natural(pool, n)?;
    let cells = pool.unary(BuiltIn::Blank, count)?;
    Ok(cells)
}
