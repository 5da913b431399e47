// Places of elements.
ghost use Rattle.std.specs.Prelude.{◌≡◌, length, map, IfOk};
ghost use Rattle.formula.specs.Pool.{AllBelow, Grows, IsIn, tree_of};
ghost use Rattle.fort_model.specs.Senses.{lies_from_to, natural as natural_tree, of_terms};
ghost use Rattle.fort_model.specs.WalkPlaces as walks;
ghost use Rattle.walk_names.specs.Names.{IsNames, named};
ghost use Rattle.walk_places.specs.Shapes.{place_moved};

use crate::dims::dim_term;
use edge_io::NoMemory;
use formula::{BuiltIn, TermId, TermPool};
use fort_syntax::Dim;
use std::alloc::Global;
use walk_names::Names;
use walk_terms::{between, natural};

/// A subscript lies from 1 to its dimension.
pub fn subscript_fits(
    alloc: Global,
    pool: &mut TermPool,
    names: &Names,
    subscript: TermId,
    dim: Dim,
) -> Result<TermId, NoMemory>
    requires kept { IsNames pool.old names.now }
    requires subscript { IsIn pool.old subscript }
    ensures grows { Grows pool.old pool.new }
    ensures is_in { IfOk result (λ id. IsIn pool.new id) }
    ensures tree { IfOk result (λ id. tree_of pool.new id ≡ lies_from_to of_terms
        (natural_tree of_terms 1) (walks.dim of_terms (named pool.old names.now) dim)
        (tree_of pool.old subscript)) }
{
    let most = dim_term(alloc, pool, names, dim)?;
    let least = natural(pool, 1)?;
    let fits = between(pool, least, subscript, most)?;
    Ok(fits)
}

/// The place for some subscripts, and the stretch of their dimensions.
#[derive(Clone, Copy, Debug)]
struct Reached {
    place: TermId,
    stretch: TermId,
}

/// Subscripts and dimensions that are still to come.
#[derive(Clone, Copy)]
struct Left<'a> {
    subscripts: &'a [TermId],
    dims: &'a [Dim],
}

/// A place, and as many more stretches as a subscript counts behind the first.
fn moved(pool: &mut TermPool, so_far: Reached, subscript: TermId) -> Result<TermId, NoMemory>
    requires place { IsIn pool.old so_far.place }
    requires stretch { IsIn pool.old so_far.stretch }
    requires subscript { IsIn pool.old subscript }
    ensures grows { Grows pool.old pool.new }
    ensures is_in { IfOk result (λ id. IsIn pool.new id) }
    ensures tree { IfOk result (λ id. tree_of pool.new id ≡ place_moved
        (tree_of pool.old so_far.place) (tree_of pool.old so_far.stretch)
        (tree_of pool.old subscript)) }
{
    let one = natural(pool, 1)?;
    let count = pool.binary(BuiltIn::Difference, subscript, one)?;
    let more = pool.binary(BuiltIn::Times, so_far.stretch, count)?;
    let next = pool.binary(BuiltIn::Plus, so_far.place, more)?;
    Ok(next)
}

/// The place for the subscripts so far and the stretch of their dimensions, moved by further
/// subscripts.
fn place_from(
    alloc: Global,
    pool: &mut TermPool,
    names: &Names,
    so_far: Reached,
    left: &Left<'_>,
) -> Result<TermId, NoMemory>
    requires kept { IsNames pool.old names.now }
    requires place { IsIn pool.old so_far.place }
    requires stretch { IsIn pool.old so_far.stretch }
    requires subscripts { AllBelow (length pool.old) left.now.subscripts.now }
    ensures grows { Grows pool.old pool.new }
    ensures is_in { IfOk result (λ id. IsIn pool.new id) }
    ensures tree { IfOk result (λ id. tree_of pool.new id ≡ walks.place_from of_terms
        (named pool.old names.now) (tree_of pool.old so_far.place) (tree_of pool.old so_far.stretch)
        (map (tree_of pool.old) left.now.subscripts.now) left.now.dims.now) }
{
    let [subscript, more @ ..] = left.subscripts else {
        return Ok(so_far.place);
    };
    let [dim, rest @ ..] = left.dims else {
        return Ok(so_far.place);
    };
    let place = moved(pool, so_far, *subscript)?;
    let most = dim_term(alloc, pool, names, *dim)?;
    let stretch = pool.binary(BuiltIn::Times, so_far.stretch, most)?;
    let next = Reached { place, stretch };
    let behind = Left {
        subscripts: more,
        dims: rest,
    };
    let whole = place_from(alloc, pool, names, next, &behind)?;
    Ok(whole)
}

/// The place of an element, from 1, by its subscripts and the dimensions of its array.
pub fn place(
    alloc: Global,
    pool: &mut TermPool,
    names: &Names,
    subscripts: &[TermId],
    dims: &[Dim],
) -> Result<TermId, NoMemory>
    requires kept { IsNames pool.old names.now }
    requires subscripts { AllBelow (length pool.old) subscripts.now }
    ensures grows { Grows pool.old pool.new }
    ensures is_in { IfOk result (λ id. IsIn pool.new id) }
    ensures tree { IfOk result (λ id. tree_of pool.new id ≡ walks.place of_terms
        (named pool.old names.now) (map (tree_of pool.old) subscripts.now) dims.now) }
{
    let [subscript, more @ ..] = subscripts else {
        return natural(pool, 1);
    };
    let [dim, rest @ ..] = dims else {
        return natural(pool, 1);
    };
    let stretch = dim_term(alloc, pool, names, *dim)?;
    let first = Reached {
        place: *subscript,
        stretch,
    };
    let behind = Left {
        subscripts: more,
        dims: rest,
    };
    let whole = place_from(alloc, pool, names, first, &behind)?;
    Ok(whole)
}
