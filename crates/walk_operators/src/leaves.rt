// Constants, truth values and bare names.
ghost use Rattle.std.specs.Prelude.{◌≡◌, length, IfOk};
ghost use Rattle.formula.specs.Pool.{IsIn, tree_of};
ghost use Rattle.fort_model.specs.Seen.{see};
ghost use Rattle.fort_model.specs.Senses.{of_terms};
ghost use Rattle.fort_model.specs.WalkCalls.{Bare, Computed};
ghost use Rattle.fort_model.specs.WalkExpr as steps;
ghost use Rattle.walk_operands.specs.Operands.{IsOperandIn, operand_tree};
ghost use Rattle.walk_state.specs.Moments.{Follows, IsWalk, moment};
ghost use Rattle.walk_values.specs.Parts.{Does, DoesWithin};

use edge_io::NoMemory;
use fort_syntax::Name;
use walk_operands::Operand;
use walk_state::Walk;
use walk_values::constant;

/// A constant.
pub fn constant_of(walk: &mut Walk, bound: u64, card: u32, c: u64) -> Result<Operand, NoMemory>
    requires { IsWalk walk.old }
    ensures on { Follows walk.old walk.new }
    ensures is_in { IfOk result (λ x. IsOperandIn (length walk.new.pool) x) }
    ensures did { IfOk result (λ x. DoesWithin bound (moment walk.old)
        (λ w. steps.computed w (steps.constant w card c)) (moment walk.new)
        (operand_tree walk.new.pool x)) }
{
    let value = constant(walk, bound, card, c)?;
    Ok(Operand::Computed(value))
}

/// `.TRUE.` or `.FALSE.`
pub fn truth_of(walk: &mut Walk, b: bool) -> Result<Operand, NoMemory>
    requires { IsWalk walk.old }
    ensures on { Follows walk.old walk.new }
    ensures is_in { IfOk result (λ x. IsOperandIn (length walk.new.pool) x) }
    ensures did { IfOk result (λ x. Does (moment walk.old)
        (λ w. see (Computed (w.sense.truth_value b))) (moment walk.new)
        (operand_tree walk.new.pool x)) }
{
    let Ok(value) = walk.pool.truth(b) else {
        return Err(NoMemory);
    };
    Ok(Operand::Computed(value))
}

/// A bare name, which is not read.
pub fn name_of(walk: &mut Walk, name: &Name) -> Result<Operand, NoMemory>
    requires { IsWalk walk.old }
    ensures on { Follows walk.old walk.new }
    ensures is_in { IfOk result (λ x. IsOperandIn (length walk.new.pool) x) }
    ensures did { IfOk result (λ x. Does (moment walk.old)
        (λ w. see (Bare name.now ((moment walk.old).now name.now))) (moment walk.new)
        (operand_tree walk.new.pool x)) }
{
    let value = walk.term(name)?;
    Ok(Operand::Bare(*name, value))
}
