// Operators of one value and of two, and operands that are read.
ghost use Rattle.std.specs.Prelude.{◌≡◌, length, IfOk};
ghost use Rattle.formula.specs.Pool.{IsIn, tree_of};
ghost use Rattle.formula.specs.declared.function.BuiltIn.TheVariants as f;
ghost use Rattle.fort_model.specs.Senses.{make1, of_terms};
ghost use Rattle.fort_model.specs.WalkCalls.{Computed};
ghost use Rattle.fort_model.specs.WalkExpr as steps;
ghost use Rattle.walk_operands.specs.Operands.{IsOperandIn, operand_tree};
ghost use Rattle.walk_state.specs.Moments.{Follows, IsWalk, moment};
ghost use Rattle.walk_values.specs.Parts.{Does};
ghost use Rattle.walk_operators.specs.Operators.{of_one, of_two};

use crate::relations::{Test, tested};
use edge_io::NoMemory;
use formula::{BuiltIn, TermId};
use fort_syntax::BinOp;
use walk_operands::Operand;
use walk_state::Walk;
use walk_terms::negated;
use walk_values::{operate, power, ranged, read};

/// An operator of one value. Brackets and the sign + keep it.
#[derive(Clone, Copy, Debug)]
pub enum Unary {
    Kept,
    Negative,
    Power(u8),
    Not,
}

/// An operator of two values, which comes to a number or to a truth value.
#[derive(Clone, Copy, Debug)]
pub enum Binary {
    Number(BinOp),
    Truth(Test),
}

/// The value of an operand: a name or an element is read, and must be defined.
pub fn read_operand(walk: &mut Walk, card: u32, operand: Operand) -> Result<TermId, NoMemory>
    requires well { IsWalk walk.old }
    requires operand { IsOperandIn (length walk.old.pool) operand }
    ensures on { Follows walk.old walk.new }
    ensures is_in { IfOk result (λ id. IsIn walk.new.pool id) }
    ensures did { IfOk result (λ id. Does (moment walk.old) (λ w. steps.read_operand w card
        (operand_tree walk.old.pool operand)) (moment walk.new) (tree_of walk.new.pool id)) }
{
    match operand {
        Operand::Bare(_, value) => {
            read(walk, card, value)?;
            Ok(value)
        }
        Operand::Part(value) => {
            read(walk, card, value)?;
            Ok(value)
        }
        Operand::Computed(value) => Ok(value),
    }
}

/// A number with the sign turned round, which must be in range.
fn negative(walk: &mut Walk, card: u32, a: TermId) -> Result<TermId, NoMemory>
    requires well { IsWalk walk.old }
    requires a { IsIn walk.old.pool a }
    ensures on { Follows walk.old walk.new }
    ensures is_in { IfOk result (λ id. IsIn walk.new.pool id) }
    ensures did { IfOk result (λ id. Does (moment walk.old) (λ w. steps.ranged w card
        (make1 of_terms f.Negative (tree_of walk.old.pool a))) (moment walk.new)
        (tree_of walk.new.pool id)) }
{
    let Ok(value) = walk.pool.unary(BuiltIn::Negative, a) else {
        return Err(NoMemory);
    };
    ranged(walk, card, value)?;
    Ok(value)
}

/// What an operator of one value comes to.
pub fn unary_value(walk: &mut Walk, card: u32, op: Unary, a: TermId) -> Result<TermId, NoMemory>
    requires well { IsWalk walk.old }
    requires a { IsIn walk.old.pool a }
    ensures on { Follows walk.old walk.new }
    ensures is_in { IfOk result (λ id. IsIn walk.new.pool id) }
    ensures did { IfOk result (λ id. Does (moment walk.old) (λ w. of_one w card op
        (tree_of walk.old.pool a)) (moment walk.new) (Computed (tree_of walk.new.pool id))) }
{
    match op {
        Unary::Kept => Ok(a),
        Unary::Negative => {
            let value = negative(walk, card, a)?;
            Ok(value)
        }
        Unary::Power(exponent) => {
            let value = power(walk, card, a, exponent)?;
            Ok(value)
        }
        Unary::Not => {
            let Ok(value) = negated(&mut walk.pool, a) else {
                return Err(NoMemory);
            };
            Ok(value)
        }
    }
}

/// What an operator of two values comes to.
pub fn binary_value(
    walk: &mut Walk,
    card: u32,
    op: Binary,
    a: TermId,
    b: TermId,
) -> Result<TermId, NoMemory>
    requires well { IsWalk walk.old }
    requires a { IsIn walk.old.pool a }
    requires b { IsIn walk.old.pool b }
    ensures on { Follows walk.old walk.new }
    ensures is_in { IfOk result (λ id. IsIn walk.new.pool id) }
    ensures did { IfOk result (λ id. Does (moment walk.old) (λ w. of_two w card op
        (tree_of walk.old.pool a) (tree_of walk.old.pool b)) (moment walk.new)
        (Computed (tree_of walk.new.pool id))) }
{
    match op {
        Binary::Number(op) => {
            let value = operate(walk, card, op, a, b)?;
            Ok(value)
        }
        Binary::Truth(test) => {
            let Ok(value) = tested(&mut walk.pool, test, a, b) else {
                return Err(NoMemory);
            };
            Ok(value)
        }
    }
}
