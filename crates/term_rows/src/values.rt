// Values: a number, `T`, `F`, `U` for undefined, or cells in brackets.
use anyhow::{Result, bail};
use edge_io::List;
use formula::{Cell, Value};
use std::alloc::Global;
use std::str;
use test_rows::put_word;

// The cell that a word is.
fn cell(word: &[u8]) -> Result<Cell> {
    Ok(match word {
        b"T" => Cell::Logical(true),
        b"F" => Cell::Logical(false),
        b"U" => Cell::Undefined,
        _ => match str::from_utf8(word)?.parse::<i128>() {
            Ok(number) => Cell::Int(number),
            Err(_) => bail!("no value"),
        },
    })
}

/// The value that a text is.
pub(crate) fn value(alloc: Global, text: &[u8]) -> Result<Value> {
    let [b'(', inner @ .., b')'] = text else {
        return Ok(match cell(text)? {
            Cell::Int(number) => Value::Int(number),
            Cell::Logical(truth) => Value::Logical(truth),
            Cell::Undefined => Value::Undefined,
        });
    };
    let mut cells = Vec::new(alloc);
    for word in inner.split(|byte| *byte == b' ') {
        cells.push(cell(word)?)?;
    }
    Ok(Value::Cells(List::from_vec(cells)))
}

fn put_cell(alloc: Global, text: &mut Vec<u8>, cell: Cell) -> Result<()> {
    match cell {
        Cell::Int(number) => put_word(text, format!(in alloc; "{number}")?.as_bytes())?,
        Cell::Logical(true) => put_word(text, b"T")?,
        Cell::Logical(false) => put_word(text, b"F")?,
        Cell::Undefined => put_word(text, b"U")?,
    }
    Ok(())
}

/// The text of a value.
pub(crate) fn value_text(alloc: Global, value: &Value) -> Result<String> {
    let mut text = Vec::new(alloc);
    match value {
        Value::Int(number) => put_cell(alloc, &mut text, Cell::Int(*number))?,
        Value::Logical(truth) => put_cell(alloc, &mut text, Cell::Logical(*truth))?,
        Value::Undefined => put_cell(alloc, &mut text, Cell::Undefined)?,
        Value::Cells(cells) => {
            put_word(&mut text, b"(")?;
            for cell in cells.as_slice().iter() {
                put_cell(alloc, &mut text, *cell)?;
            }
            text.push(b')')?;
        }
    }
    Ok(String::from_utf8(text)?)
}
