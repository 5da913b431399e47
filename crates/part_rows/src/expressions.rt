// The pieces of an expression.
use crate::prefix::{Piece, Pieces};
use fort_syntax::{BinOp, Expr, RelOp};
use std::alloc::AllocError;

fn operator(op: BinOp) -> &'static [u8] {
    match op {
        BinOp::Add => b"+",
        BinOp::Sub => b"-",
        BinOp::Mul => b"*",
        BinOp::Div => b"/",
    }
}

fn relation(op: RelOp) -> &'static [u8] {
    match op {
        RelOp::Lt => b".LT.",
        RelOp::Le => b".LE.",
        RelOp::Eq => b".EQ.",
        RelOp::Ne => b".NE.",
        RelOp::Ge => b".GE.",
        RelOp::Gt => b".GT.",
    }
}

// Puts an operator with one operand.
fn put_one<'a>(
    pieces: &mut Pieces<'a>,
    word: &'a [u8],
    operand: &'a Expr,
) -> Result<(), AllocError> {
    pieces.open(word)?;
    pieces.put(Piece::Expr(operand))?;
    pieces.put(Piece::Close)
}

// Puts an operator with two operands.
fn put_two<'a>(
    pieces: &mut Pieces<'a>,
    word: &'a [u8],
    left: &'a Expr,
    right: &'a Expr,
) -> Result<(), AllocError> {
    pieces.open(word)?;
    pieces.put(Piece::Expr(left))?;
    pieces.put(Piece::Expr(right))?;
    pieces.put(Piece::Close)
}

/// Puts expressions.
pub(crate) fn put_exprs<'a>(pieces: &mut Pieces<'a>, exprs: &'a [Expr]) -> Result<(), AllocError> {
    for expr in exprs.iter() {
        pieces.put(Piece::Expr(expr))?;
    }
    Ok(())
}

/// Puts the pieces of an expression. Brackets have the operator `()`.
pub(crate) fn put_expr<'a>(pieces: &mut Pieces<'a>, expr: &'a Expr) -> Result<(), AllocError> {
    match expr {
        Expr::Const(number) => pieces.put(Piece::Number(*number)),
        Expr::Truth(true) => pieces.put(Piece::Word(b".TRUE.")),
        Expr::Truth(false) => pieces.put(Piece::Word(b".FALSE.")),
        Expr::Var(name) => pieces.put(Piece::Word(name.as_bytes())),
        Expr::Apply(name, args) => {
            pieces.open(name.as_bytes())?;
            put_exprs(pieces, args.as_slice())?;
            pieces.put(Piece::Close)
        }
        Expr::Paren(a) => put_one(pieces, b"()", a.get()),
        Expr::Pos(a) => put_one(pieces, b"+", a.get()),
        Expr::Neg(a) => put_one(pieces, b"-", a.get()),
        Expr::Not(a) => put_one(pieces, b".NOT.", a.get()),
        Expr::Power(a, exponent) => {
            pieces.open(b"**")?;
            pieces.put(Piece::Expr(a.get()))?;
            pieces.put(Piece::Number(u64::from(*exponent)))?;
            pieces.put(Piece::Close)
        }
        Expr::Bin(op, a, b) => put_two(pieces, operator(*op), a.get(), b.get()),
        Expr::Rel(op, a, b) => put_two(pieces, relation(*op), a.get(), b.get()),
        Expr::And(a, b) => put_two(pieces, b".AND.", a.get(), b.get()),
        Expr::Or(a, b) => put_two(pieces, b".OR.", a.get(), b.get()),
    }
}
