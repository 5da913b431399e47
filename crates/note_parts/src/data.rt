// Parts that stand in lists.
ghost use Rattle.std.specs.Prelude.{◌≡◌};
ghost use Rattle.formula.specs.Values.{of_cell};
ghost use Rattle.fort_notes.specs.Parts.{parsed, bracket, cell, word_of, some, inside};
ghost use Rattle.fort_notes.specs.Forms.{is_parameter, pair_parts, site_parts, given_parts, value_form, assigned_parts};
ghost use Rattle.note_parts.specs.Answers.{Gives};

use crate::Lack;
use crate::lists::{Part, inside_brackets};
use crate::numbers::{cell, count, number};
use crate::tokens::{begins_word, closing, opening, sign_word};
use crate::words::{entity, parameter, symbol, unit_name};
use edge_io::List;
use formula::{Cell, Value, Word};
use fort_notes::{Given, Site};
use std::alloc::Global;

/// Words stand in lists as parameters.
impl Part for Word {
    ghost part = { word_of is_parameter };

    fn read(_: Global, text: &[u8]) -> Result<(Word, &[u8]), Lack> {
        match parameter(text) {
            Some((name, rest)) => Ok((name, rest)),
            None => Err(Lack::Form),
        }
    }
}

impl Part for Cell {
    ghost part = { cell };

    fn read(_: Global, text: &[u8]) -> Result<(Cell, &[u8]), Lack> {
        cell(text)
    }
}

// The number of a hypothesis, and its factor.
fn pair(text: &[u8]) -> Result<((u64, i64), &[u8]), Lack>
    ensures { Gives (λ r. parsed r.0 r.1.now) result (pair_parts text.now) }
{
    let (i, rest) = count(text)?;
    let (m, rest) = number(rest)?;
    Ok(((i, m), rest))
}

/// In brackets the number of a hypothesis and its factor.
impl Part for (u64, i64) {
    ghost part = { bracket pair_parts };

    fn read(_: Global, text: &[u8]) -> Result<((u64, i64), &[u8]), Lack> {
        let rest = opening(text)?;
        let (x, rest) = pair(rest)?;
        let rest = closing(rest)?;
        Ok((x, rest))
    }
}

/// In brackets a unit, the number of a call, and that of an argument.
impl Part for Site {
    ghost part = { bracket site_parts };

    fn read(_: Global, text: &[u8]) -> Result<(Site, &[u8]), Lack> {
        let rest = opening(text)?;
        let Some((unit, rest)) = unit_name(rest) else {
            return Err(Lack::Form);
        };
        let (call, rest) = count(rest)?;
        let (place, rest) = count(rest)?;
        let rest = closing(rest)?;
        Ok((Site { unit, call, place }, rest))
    }
}

// One cell or more, up to a closing bracket.
fn some_cells(alloc: Global, text: &[u8]) -> Result<(List<Cell>, &[u8]), Lack>
    ensures { Gives (λ r. parsed r.0 r.1.now) result (some (inside cell text.now)) }
{
    let (cells, rest) = inside_brackets::<Cell>(alloc, text)?;
    if cells.as_slice().is_empty() {
        return Err(Lack::Form);
    }
    Ok((cells, rest))
}

/// In brackets a name and one cell or more.
impl Part for Given {
    ghost part = { bracket given_parts };

    fn read(alloc: Global, text: &[u8]) -> Result<(Given, &[u8]), Lack> {
        let rest = opening(text)?;
        let Some((name, rest)) = entity(rest) else {
            return Err(Lack::Form);
        };
        let (cells, rest) = some_cells(alloc, rest)?;
        let rest = closing(rest)?;
        Ok((Given { name, cells }, rest))
    }
}

// The value of a cell.
fn of_cell(c: Cell) -> Value
    ensures { result ≡ of_cell c }
{
    match c {
        Cell::Int(z) => Value::Int(z),
        Cell::Logical(b) => Value::Logical(b),
        Cell::Undefined => Value::Undefined,
    }
}

// A cell, or CELLS and any number of cells.
fn value(alloc: Global, text: &[u8]) -> Result<(Value, &[u8]), Lack>
    ensures { Gives (λ r. parsed r.0 r.1.now) result (value_form text.now) }
{
    if begins_word(text, b"CELLS") {
        let rest = sign_word(text, b"CELLS")?;
        let (cells, rest) = inside_brackets::<Cell>(alloc, rest)?;
        return Ok((Value::Cells(cells), rest));
    }
    let (c, rest) = cell(text)?;
    Ok((of_cell(c), rest))
}

/// In brackets a symbol and its value.
impl Part for (Word, Value) {
    ghost part = { bracket assigned_parts };

    fn read(alloc: Global, text: &[u8]) -> Result<((Word, Value), &[u8]), Lack> {
        let rest = opening(text)?;
        let Some((name, rest)) = symbol(rest) else {
            return Err(Lack::Form);
        };
        let (v, rest) = value(alloc, rest)?;
        let rest = closing(rest)?;
        Ok(((name, v), rest))
    }
}
