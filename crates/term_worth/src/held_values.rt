// What is known of held values.
ghost use Rattle.std.specs.Prelude.{◌≡◌, [], true, IfOk};
ghost use Rattle.std.specs.List.{list_all, list_any};
ghost use Rattle.term_worth.specs.Machine as machine;
ghost use Rattle.term_worth.specs.Machine.{cells_of, entry_at, value_of, values_of, Answers};
ghost use Rattle.term_worth.specs.Ranges.{in_range};
ghost use Rattle.formula.specs.Values as values;
ghost use Rattle.term_worth.specs.declared.machine.Held.TheVariants as held;

use crate::cells::same_cells;
use crate::machine::Held;
use edge_io::{List, NoMemory};
use formula::{Cell, Value, Word};
use std::alloc::Global;

/// What a function makes of its arguments.
#[derive(Drop)]
pub enum Answer {
    Held(Held),
    /// New cells.
    Made(List<Cell>),
    /// A number out of range.
    Beyond,
}

/// The number of a value; 0 where it is none.
pub fn number_of(held: Held) -> i128
    ensures { result ≡ machine.held_num held }
{
    match held {
        Held::Int(n) => n,
        _ => 0,
    }
}

/// Whether a value counts as true.
pub fn counts_as_true(held: Held) -> bool
    ensures { result ≡ machine.held_holds held }
{
    match held {
        Held::Logical(b) => b,
        _ => true,
    }
}

/// Whether a value is a list of cells.
pub fn is_list(held: Held) -> bool
    ensures { result ≡ machine.held_is_list held }
{
    match held {
        Held::Given(_) | Held::Made(_) => true,
        _ => false,
    }
}

/// The cell of a value that is no list.
pub fn cell_of(held: Held) -> Cell
    ensures { result ≡ machine.held_cell held }
{
    match held {
        Held::Int(n) => Cell::Int(n),
        Held::Logical(b) => Cell::Logical(b),
        _ => Cell::Undefined,
    }
}

/// The value of a cell.
pub fn held_of(cell: Cell) -> Held
    ensures { result ≡ machine.cell_held cell }
{
    match cell {
        Cell::Int(n) => Held::Int(n),
        Cell::Logical(b) => Held::Logical(b),
        Cell::Undefined => Held::Undefined,
    }
}

/// The cells of a value; none where it is no list.
pub fn cells_of<'a>(entries: &'a [(Word, Value)], made: &'a [List<Cell>], held: Held) -> &'a [Cell]
    ensures { result.now ≡ cells_of (value_of entries.now made.now held) }
{
    match held {
        Held::Given(place) => given_cells(entries, place),
        Held::Made(place) => made_cells(made, place),
        _ => &[],
    }
}

/// The cells of an entry of a sheet.
fn given_cells(entries: &[(Word, Value)], place: usize) -> &[Cell]
    ensures { result.now ≡ cells_of (entry_at entries.now place) }
{
    match entries.get(place) {
        Some(entry) => value_cells(&entry.1),
        None => &[],
    }
}

/// The cells of a value; none where it is no list.
fn value_cells(value: &Value) -> &[Cell]
    ensures { result.now ≡ cells_of value.now }
{
    match value {
        Value::Cells(cells) => cells.as_slice(),
        _ => &[],
    }
}

/// The cells of a list that was made.
fn made_cells(made: &[List<Cell>], place: usize) -> &[Cell]
    ensures { result.now ≡ cells_of (value_of [] made.now («held».Made place)) }
{
    match made.get(place) {
        Some(cells) => cells.as_slice(),
        None => &[],
    }
}

/// The value that is held.
pub fn held_value(
    alloc: Global,
    entries: &[(Word, Value)],
    made: &[List<Cell>],
    held: Held,
) -> Result<Value, NoMemory>
    ensures { IfOk result (λ v. v ≡ value_of entries.now made.now held) }
{
    match held {
        Held::Int(n) => Ok(Value::Int(n)),
        Held::Logical(b) => Ok(Value::Logical(b)),
        Held::Undefined => Ok(Value::Undefined),
        _ => {
            let Ok(items) = Vec::from_slice(alloc, cells_of(entries, made, held)) else {
                return Err(NoMemory);
            };
            Ok(Value::Cells(List::from_vec(items)))
        }
    }
}
