// The text of cells.
ghost use Rattle.std.specs.Prelude.{◌≡◌, ◌++◌, ◌+◌, OnOk};
ghost use Rattle.std.specs.Fmt.{signed_decimal};
ghost use Rattle.fort_model.specs.Storage.{contents, load};
ghost use Rattle.run_texts.specs.Outcomes.{cell_text, cells_text, entry_text, next_text, value_text};

use edge_io::NoMemory;
use itoa::Buffer;
use reply_lines::put;
use run_held::Held;
use run_rooms::Pile;
use run_state::Extent;

/// Puts a signed number: its decimal digits, behind `-` where it is below 0.
fn put_signed(text: &mut Vec<u8>, n: i64) -> Result<(), NoMemory>
    ensures { OnOk result (text.new.items ≡ text.old.items ++ signed_decimal n) }
{
    let mut buffer = Buffer::new();
    let digits = buffer.format(n);
    put(text, digits.as_bytes())
}

/// Puts what a cell holds: a number, T, F or U.
pub(crate) fn put_cell(text: &mut Vec<u8>, cell: &Held) -> Result<(), NoMemory>
    ensures { OnOk result (text.new.items ≡ text.old.items ++ cell_text cell.now) }
{
    if !cell.is_defined() {
        return put(text, b"U");
    }
    if cell.is_same(&Held::logical(true)) {
        return put(text, b"T");
    }
    if cell.is_same(&Held::logical(false)) {
        return put(text, b"F");
    }
    put_signed(text, cell.num())
}

/// What the cell so many behind a first one holds; nothing where there is none.
fn cell_behind(cells: &Pile, first: usize, offset: usize) -> Held
    ensures { result ≡ load cells.now.items (first + offset) }
{
    let place = first.saturating_add(offset);
    if place < cells.len() {
        return cells.load(place);
    }
    Held::undefined()
}

/// Puts what a cell holds behind a blank.
fn put_next(text: &mut Vec<u8>, cell: &Held) -> Result<(), NoMemory>
    ensures { OnOk result (text.new.items ≡ text.old.items ++ next_text cell.now) }
{
    put(text, b" ")?;
    put_cell(text, cell)
}

/// Puts what neighbouring cells hold, in order of place, each behind a blank.
fn put_cells(text: &mut Vec<u8>, cells: &Pile, extent: Extent) -> Result<(), NoMemory>
    ensures { OnOk result (text.new.items ≡ text.old.items ++ cells_text
        (contents cells.now.items extent.first extent.size)) }
{
    for done in 0..extent.size {
        put_next(text, &cell_behind(cells, extent.first, done))?;
    }
    Ok(())
}

/// Puts a name with what its cells hold.
pub(crate) fn put_entry(
    text: &mut Vec<u8>,
    name: &[u8],
    cells: &Pile,
    extent: Extent,
) -> Result<(), NoMemory>
    ensures { OnOk result (text.new.items ≡ text.old.items ++ entry_text name.now
        (contents cells.now.items extent.first extent.size)) }
{
    put(text, b" (")?;
    put(text, name)?;
    put_cells(text, cells, extent)?;
    put(text, b")")
}

/// Puts a name with a value.
pub(crate) fn put_value(text: &mut Vec<u8>, name: &[u8], value: &Held) -> Result<(), NoMemory>
    ensures { OnOk result (text.new.items ≡ text.old.items ++ value_text name.now value.now) }
{
    put(text, b" (")?;
    put(text, name)?;
    put_next(text, value)?;
    put(text, b")")
}
