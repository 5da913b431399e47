// The pieces of a statement.
use crate::expressions::put_exprs;
use crate::prefix::{Piece, Pieces};
use fort_syntax::{BlockName, Dim, Expr, Group, Item, Name, Param, Sort, Stmt};
use std::alloc::AllocError;

fn sort_word(sort: Sort) -> &'static [u8] {
    match sort {
        Sort::Integer => b"INTEGER",
        Sort::Logical => b"LOGICAL",
    }
}

fn put_label<'a>(pieces: &mut Pieces<'a>, label: u32) -> Result<(), AllocError> {
    pieces.put(Piece::Number(u64::from(label)))
}

// Puts names in brackets.
fn put_names<'a>(pieces: &mut Pieces<'a>, names: &'a [Name]) -> Result<(), AllocError> {
    pieces.put(Piece::Open)?;
    for name in names.iter() {
        pieces.put(Piece::Word(name.as_bytes()))?;
    }
    pieces.put(Piece::Close)
}

// Puts an item: its name, or in brackets the name and the dimensions.
fn put_item<'a>(pieces: &mut Pieces<'a>, item: &'a Item) -> Result<(), AllocError> {
    if item.dims.as_slice().is_empty() {
        return pieces.put(Piece::Word(item.name.as_bytes()));
    }
    pieces.open(item.name.as_bytes())?;
    for dim in item.dims.as_slice().iter() {
        pieces.put(match dim {
            Dim::Fixed(number) => Piece::Number(*number),
            Dim::Named(name) => Piece::Word(name.as_bytes()),
        })?;
    }
    pieces.put(Piece::Close)
}

fn put_items<'a>(pieces: &mut Pieces<'a>, items: &'a [Item]) -> Result<(), AllocError> {
    for item in items.iter() {
        put_item(pieces, item)?;
    }
    Ok(())
}

// Puts a group: `-`, `//` or `/` and the block's name, and the items.
fn put_group<'a>(pieces: &mut Pieces<'a>, group: &'a Group) -> Result<(), AllocError> {
    match &group.block {
        BlockName::Bare => pieces.open(b"-")?,
        BlockName::Slashes => pieces.open(b"//")?,
        BlockName::Named(name) => {
            pieces.open(b"/")?;
            pieces.put(Piece::Word(name.as_bytes()))?;
        }
    }
    put_items(pieces, group.items.as_slice())?;
    pieces.put(Piece::Close)
}

fn put_param<'a>(pieces: &mut Pieces<'a>, param: &'a Param) -> Result<(), AllocError> {
    pieces.put(match param {
        Param::Fixed(number) => Piece::Number(*number),
        Param::Named(name) => Piece::Word(name.as_bytes()),
    })
}

// Puts a declaration without its closing bracket.
fn put_declaration<'a>(pieces: &mut Pieces<'a>, stmt: &'a Stmt) -> Result<(), AllocError> {
    match stmt {
        Stmt::Subroutine(name, dummies) => {
            pieces.open(b"SUBROUTINE")?;
            pieces.put(Piece::Word(name.as_bytes()))?;
            put_names(pieces, dummies.as_slice())
        }
        Stmt::Function(sort, name, dummies) => {
            pieces.open(b"FUNCTION")?;
            pieces.put(Piece::Word(sort.map_or(b"-", sort_word)))?;
            pieces.put(Piece::Word(name.as_bytes()))?;
            put_names(pieces, dummies.as_slice())
        }
        Stmt::Declare(sort, items) => {
            pieces.open(sort_word(*sort))?;
            put_items(pieces, items.as_slice())
        }
        Stmt::Dimension(items) => {
            pieces.open(b"DIMENSION")?;
            put_items(pieces, items.as_slice())
        }
        Stmt::Common(groups) => {
            pieces.open(b"COMMON")?;
            for group in groups.as_slice().iter() {
                put_group(pieces, group)?;
            }
            Ok(())
        }
        _ => put_word_stmt(pieces, stmt),
    }
}

// Puts a statement of one word without its closing bracket.
fn put_word_stmt<'a>(pieces: &mut Pieces<'a>, stmt: &'a Stmt) -> Result<(), AllocError> {
    pieces.open(match stmt {
        Stmt::Continue => b"CONTINUE",
        Stmt::Return => b"RETURN",
        Stmt::End => b"END",
        Stmt::Else => b"ELSE",
        Stmt::EndIf => b"ENDIF",
        _ => b"?",
    })
}

// Puts an IF up to what stands behind its expression.
fn put_if<'a>(
    pieces: &mut Pieces<'a>,
    word: &'a [u8],
    condition: &'a Expr,
) -> Result<(), AllocError> {
    pieces.open(word)?;
    pieces.put(Piece::Expr(condition))
}

// Puts an IF or ELSE IF without its closing bracket.
fn put_choice<'a>(pieces: &mut Pieces<'a>, stmt: &'a Stmt) -> Result<(), AllocError> {
    match stmt {
        Stmt::ArithIf(value, negative, zero, positive) => {
            put_if(pieces, b"IF", value)?;
            put_label(pieces, *negative)?;
            put_label(pieces, *zero)?;
            put_label(pieces, *positive)
        }
        Stmt::LogicalIf(condition, inner) => {
            put_if(pieces, b"IF", condition)?;
            pieces.put(Piece::Stmt(inner.get()))
        }
        Stmt::BlockIf(condition) => {
            put_if(pieces, b"IF", condition)?;
            pieces.put(Piece::Word(b"THEN"))
        }
        Stmt::ElseIf(condition) => {
            put_if(pieces, b"ELSEIF", condition)?;
            pieces.put(Piece::Word(b"THEN"))
        }
        _ => put_declaration(pieces, stmt),
    }
}

// Puts a statement without its closing bracket.
fn put_open<'a>(pieces: &mut Pieces<'a>, stmt: &'a Stmt) -> Result<(), AllocError> {
    match stmt {
        Stmt::Assign(left, right) => {
            put_if(pieces, b"=", left)?;
            pieces.put(Piece::Expr(right))
        }
        Stmt::GoTo(label) => {
            pieces.open(b"GOTO")?;
            put_label(pieces, *label)
        }
        Stmt::Computed(labels, name) => {
            pieces.open(b"GOTO")?;
            pieces.put(Piece::Open)?;
            for label in labels.as_slice().iter() {
                put_label(pieces, *label)?;
            }
            pieces.put(Piece::Close)?;
            pieces.put(Piece::Word(name.as_bytes()))
        }
        Stmt::Do(label, name, first, last, step) => {
            pieces.open(b"DO")?;
            put_label(pieces, *label)?;
            pieces.put(Piece::Word(name.as_bytes()))?;
            put_param(pieces, first)?;
            put_param(pieces, last)?;
            match step {
                Some(step) => put_param(pieces, step),
                None => Ok(()),
            }
        }
        Stmt::Call(name, actuals) => {
            pieces.open(b"CALL")?;
            pieces.put(Piece::Word(name.as_bytes()))?;
            put_exprs(pieces, actuals.as_slice())
        }
        _ => put_choice(pieces, stmt),
    }
}

/// Puts the pieces of a statement.
pub(crate) fn put_stmt<'a>(pieces: &mut Pieces<'a>, stmt: &'a Stmt) -> Result<(), AllocError> {
    put_open(pieces, stmt)?;
    pieces.put(Piece::Close)
}
