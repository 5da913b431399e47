// Sorts of what names stand for.
ghost use Rattle.std.specs.Prelude.{◌≡◌, IfOk, IfSome, option_copied};
ghost use Rattle.formula.specs.Pool.{Grows, IsIn, tree_of};
ghost use Rattle.fort_model.specs.Senses.{of_terms};
ghost use Rattle.fort_model.specs.WalkPlaces as walks;
ghost use Rattle.walk_names.specs.Names.{IsNames, named};
ghost use Rattle.walk_places.specs.Shapes.{IsGoodShape};

use crate::sizes::size;
use edge_io::NoMemory;
use formula::{TermId, TermPool};
use fort_syntax::{DataName, Dim, Name, Sort};
use std::alloc::Global;
use walk_names::Names;
use walk_terms::{cell_sort, cells_sort};

/// The dimensions and the type of a data name; a scalar has no dimensions.
#[derive(Clone, Copy)]
pub struct Shape<'a> {
    pub dims: &'a [Dim],
    pub sort: Sort,
}

/// A value has a type and the number of elements of some dimensions.
pub fn sort_by(
    alloc: Global,
    pool: &mut TermPool,
    names: &Names,
    shape: &Shape<'_>,
    value: TermId,
) -> Result<TermId, NoMemory>
    requires kept { IsNames pool.old names.now }
    requires shape { IsGoodShape shape.now.dims.now }
    requires value { IsIn pool.old value }
    ensures grows { Grows pool.old pool.new }
    ensures is_in { IfOk result (λ id. IsIn pool.new id) }
    ensures tree { IfOk result (λ id. tree_of pool.new id ≡ walks.sort_by of_terms
        (named pool.old names.now) shape.now.dims.now shape.now.sort (tree_of pool.old value)) }
{
    if shape.dims.is_empty() {
        return cell_sort(pool, shape.sort, value);
    }
    let count = size(alloc, pool, names, shape.dims)?;
    let cells = cells_sort(alloc, pool, shape.sort, count, value)?;
    Ok(cells)
}

/// What a name stands for has the type and the size of a data name; it is true where there is none.
pub fn sort_in(
    alloc: Global,
    pool: &mut TermPool,
    names: &Names,
    name: &Name,
    entity: Option<&DataName>,
) -> Result<TermId, NoMemory>
    requires kept { IsNames pool.old names.now }
    requires shape { IfSome (option_copied entity) (λ d. IsGoodShape d.dims) }
    ensures grows { Grows pool.old pool.new }
    ensures is_in { IfOk result (λ id. IsIn pool.new id) }
    ensures tree { IfOk result (λ id. tree_of pool.new id ≡ walks.sort_in of_terms
        (named pool.old names.now) name.now (option_copied entity.entry)) }
{
    let Some(entity) = entity else {
        return pool.truth(true);
    };
    let value = names.term(alloc, pool, name)?;
    let shape = Shape {
        dims: entity.dims.as_slice(),
        sort: entity.sort,
    };
    let fits = sort_by(alloc, pool, names, &shape, value)?;
    Ok(fits)
}
