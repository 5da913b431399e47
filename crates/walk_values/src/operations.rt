// Operations.
ghost use Rattle.std.specs.Prelude.{◌≡◌, IfOk};
ghost use Rattle.formula.specs.Pool.{IsIn, tree_of};
ghost use Rattle.fort_model.specs.Senses.{make2, of_terms};
ghost use Rattle.fort_model.specs.WalkExpr as steps;
ghost use Rattle.walk_state.specs.Moments.{Follows, IsWalk, moment};
ghost use Rattle.walk_terms.specs.Operations.{function_of};
ghost use Rattle.walk_values.specs.Parts.{Does};

use crate::checks::{divisor, ranged};
use edge_io::NoMemory;
use formula::TermId;
use fort_syntax::BinOp;
use walk_state::Walk;
use walk_terms::operation;

/// The value of an operation, which must be in range.
pub(crate) fn in_range_of(
    walk: &mut Walk,
    card: u32,
    op: BinOp,
    a: TermId,
    b: TermId,
) -> Result<TermId, NoMemory>
    requires well { IsWalk walk.old }
    requires a { IsIn walk.old.pool a }
    requires b { IsIn walk.old.pool b }
    ensures on { Follows walk.old walk.new }
    ensures is_in { IfOk result (λ id. IsIn walk.new.pool id) }
    ensures did { IfOk result (λ id. Does (moment walk.old) (λ w. steps.ranged w card
        (make2 of_terms (function_of op) (tree_of walk.old.pool a) (tree_of walk.old.pool b)))
        (moment walk.new) (tree_of walk.new.pool id)) }
{
    let Ok(value) = operation(&mut walk.pool, op, a, b) else {
        return Err(NoMemory);
    };
    ranged(walk, card, value)?;
    Ok(value)
}

/// The quotient of two numbers: the divisor is not 0, and the quotient is in range.
pub(crate) fn quotient(walk: &mut Walk, card: u32, a: TermId, b: TermId) -> Result<TermId, NoMemory>
    requires well { IsWalk walk.old }
    requires a { IsIn walk.old.pool a }
    requires b { IsIn walk.old.pool b }
    ensures on { Follows walk.old walk.new }
    ensures is_in { IfOk result (λ id. IsIn walk.new.pool id) }
    ensures did { IfOk result (λ id. Does (moment walk.old) (λ w. steps.operate w card BinOp.Div
        (tree_of walk.old.pool a) (tree_of walk.old.pool b)) (moment walk.new)
        (tree_of walk.new.pool id)) }
{
    divisor(walk, card, b)?;
    let value = in_range_of(walk, card, BinOp::Div, a, b)?;
    Ok(value)
}

/// A sum, difference, product or quotient of two values.
pub fn operate(
    walk: &mut Walk,
    card: u32,
    op: BinOp,
    a: TermId,
    b: TermId,
) -> Result<TermId, NoMemory>
    requires well { IsWalk walk.old }
    requires a { IsIn walk.old.pool a }
    requires b { IsIn walk.old.pool b }
    ensures on { Follows walk.old walk.new }
    ensures is_in { IfOk result (λ id. IsIn walk.new.pool id) }
    ensures did { IfOk result (λ id. Does (moment walk.old) (λ w. steps.operate w card op
        (tree_of walk.old.pool a) (tree_of walk.old.pool b)) (moment walk.new)
        (tree_of walk.new.pool id)) }
{
    match op {
        BinOp::Add => in_range_of(walk, card, BinOp::Add, a, b),
        BinOp::Sub => in_range_of(walk, card, BinOp::Sub, a, b),
        BinOp::Mul => in_range_of(walk, card, BinOp::Mul, a, b),
        BinOp::Div => quotient(walk, card, a, b),
    }
}
