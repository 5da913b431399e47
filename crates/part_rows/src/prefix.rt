// The prefix form of a statement: `(`, an operator or a word, what it is applied to, `)`.
use crate::expressions::put_expr;
use crate::statements::put_stmt;
use anyhow::{Result, bail};
use fort_syntax::{Expr, Stmt};
use std::alloc::{AllocError, Global};
use test_rows::put_word;

/// The most pieces of a statement.
const ROUNDS: u32 = 1 << 20;

/// A piece of a prefix form. Statements and expressions are put out piece by piece.
#[derive(Clone, Copy)]
pub(crate) enum Piece<'a> {
    Open,
    Close,
    Word(&'a [u8]),
    Number(u64),
    Expr(&'a Expr),
    Stmt(&'a Stmt),
}

/// Pieces, the first one first.
#[derive(Drop)]
pub(crate) struct Pieces<'a> {
    list: Vec<Piece<'a>>,
}

impl<'a> Pieces<'a> {
    /// Puts a piece behind the others.
    pub(crate) fn put(&mut self, piece: Piece<'a>) -> Result<(), AllocError> {
        self.list.push(piece)?;
        Ok(())
    }

    /// Puts an opening bracket and a word.
    pub(crate) fn open(&mut self, word: &'a [u8]) -> Result<(), AllocError> {
        self.put(Piece::Open)?;
        self.put(Piece::Word(word))
    }
}

// Puts a piece that has no pieces of its own; the pieces of any other.
fn put_piece<'a>(
    alloc: Global,
    text: &mut Vec<u8>,
    pieces: &mut Pieces<'a>,
    piece: Piece<'a>,
) -> Result<()> {
    match piece {
        Piece::Open => put_word(text, b"(")?,
        Piece::Close => text.push(b')')?,
        Piece::Word(word) => put_word(text, word)?,
        Piece::Number(number) => put_word(text, format!(in alloc; "{number}")?.as_bytes())?,
        Piece::Expr(expr) => put_expr(pieces, expr)?,
        Piece::Stmt(stmt) => put_stmt(pieces, stmt)?,
    }
    Ok(())
}

/// Puts the prefix form of a statement.
pub(crate) fn put_prefix(alloc: Global, text: &mut Vec<u8>, stmt: &Stmt) -> Result<()> {
    let mut stack = vec![in alloc; Piece::Stmt(stmt)]?;
    for _ in 0..ROUNDS {
        let Some(piece) = stack.pop() else {
            return Ok(());
        };
        let mut pieces = Pieces {
            list: Vec::new(alloc),
        };
        put_piece(alloc, text, &mut pieces, piece)?;
        for _ in 0..pieces.list.len() {
            let Some(next) = pieces.list.pop() else {
                break;
            };
            stack.push(next)?;
        }
    }
    bail!("a statement of too many pieces");
}
