// The types of cells.
ghost use Rattle.std.specs.Prelude.{◌≡◌, IfOk};
ghost use Rattle.formula.specs.Pool.{Grows, IsIn, tree_of};
ghost use Rattle.fort_model.specs.Senses.{of_terms};
ghost use Rattle.fort_model.specs.WalkPlaces as sorts;

use crate::integers::{greatest_integer, least_integer};
use edge_io::NoMemory;
use formula::{Args, BuiltIn, Func, TermId, TermPool};
use fort_syntax::Sort;
use std::alloc::Global;

/// A cell is undefined or an integer of the processor.
fn integer_cell(pool: &mut TermPool, value: TermId) -> Result<TermId, NoMemory>
    requires { IsIn pool.old value }
    ensures grows { Grows pool.old pool.new }
    ensures is_in { IfOk result (λ id. IsIn pool.new id) }
    ensures tree { IfOk result (λ id. tree_of pool.new id ≡ sorts.cell_sort of_terms Sort.Integer
        (tree_of pool.old value)) }
{
    let least = least_integer(pool)?;
    let greatest = greatest_integer(pool)?;
    let cell = pool.ternary(BuiltIn::IntegerCell, value, least, greatest)?;
    Ok(cell)
}

/// One cell is undefined or of a type.
pub fn cell_sort(pool: &mut TermPool, sort: Sort, value: TermId) -> Result<TermId, NoMemory>
    requires { IsIn pool.old value }
    ensures grows { Grows pool.old pool.new }
    ensures is_in { IfOk result (λ id. IsIn pool.new id) }
    ensures tree { IfOk result (λ id. tree_of pool.new id ≡ sorts.cell_sort of_terms sort
        (tree_of pool.old value)) }
{
    match sort {
        Sort::Integer => integer_cell(pool, value),
        Sort::Logical => pool.unary(BuiltIn::LogicalCell, value),
    }
}

/// So many cells are each undefined or an integer of the processor.
fn integer_cells(
    alloc: Global,
    pool: &mut TermPool,
    count: TermId,
    value: TermId,
) -> Result<TermId, NoMemory>
    requires count { IsIn pool.old count }
    requires value { IsIn pool.old value }
    ensures grows { Grows pool.old pool.new }
    ensures is_in { IfOk result (λ id. IsIn pool.new id) }
    ensures tree { IfOk result (λ id. tree_of pool.new id ≡ sorts.cells_sort of_terms Sort.Integer
        (tree_of pool.old count) (tree_of pool.old value)) }
{
    let least = least_integer(pool)?;
    let greatest = greatest_integer(pool)?;
    let args = Args::new(alloc, &[value, count, least, greatest])?;
    let cells = pool.apply(Func::BuiltIn(BuiltIn::IntegerCells), args)?;
    Ok(cells)
}

/// So many cells are each undefined or of a type.
pub fn cells_sort(
    alloc: Global,
    pool: &mut TermPool,
    sort: Sort,
    count: TermId,
    value: TermId,
) -> Result<TermId, NoMemory>
    requires count { IsIn pool.old count }
    requires value { IsIn pool.old value }
    ensures grows { Grows pool.old pool.new }
    ensures is_in { IfOk result (λ id. IsIn pool.new id) }
    ensures tree { IfOk result (λ id. tree_of pool.new id ≡ sorts.cells_sort of_terms sort
        (tree_of pool.old count) (tree_of pool.old value)) }
{
    match sort {
        Sort::Integer => integer_cells(alloc, pool, count, value),
        Sort::Logical => pool.binary(BuiltIn::LogicalCells, value, count),
    }
}
