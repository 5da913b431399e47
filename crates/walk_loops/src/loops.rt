// Checks of DOs, and the next value of the variable of a DO.
ghost use Rattle.std.specs.Prelude.{◌≡◌, IfOk, OnOk};
ghost use Rattle.formula.specs.Pool.{Grows, IsIn, tree_of};
ghost use Rattle.formula.specs.declared.function.BuiltIn.TheVariants.{AtMost};
ghost use Rattle.fort_syntax.specs.declared.condition.Kind.TheVariants.{LoopCheck};
ghost use Rattle.fort_model.specs.Senses.{make2, natural as natural_tree, of_terms};
ghost use Rattle.fort_model.specs.WalkExpr.{checked};
ghost use Rattle.walk_state.specs.Moments.{Follows, IsWalk, moment};
ghost use Rattle.walk_values.specs.Parts.{Does, DoesWithin};
ghost use Rattle.walk_loops.specs.Loops as loops;

use edge_io::NoMemory;
use formula::{BuiltIn, TermId, TermPool};
use fort_syntax::{BinOp, Kind, Name, Param};
use walk_facts::{read_name, step_value};
use walk_state::Walk;
use walk_terms::{all_three, natural};
use walk_values::operate;

/// The number 1 is at most a number.
fn positive(pool: &mut TermPool, number: TermId) -> Result<TermId, NoMemory>
    requires { IsIn pool.old number }
    ensures grows { Grows pool.old pool.new }
    ensures is_in { IfOk result (λ id. IsIn pool.new id) }
    ensures tree { IfOk result (λ id. tree_of pool.new id ≡ make2 of_terms AtMost
        (natural_tree of_terms 1) (tree_of pool.old number)) }
{
    let one = natural(pool, 1)?;
    let at_least = pool.binary(BuiltIn::AtMost, one, number)?;
    Ok(at_least)
}

/// The first value is 1 or more, the last is no less, and the step is 1 or more.
fn fits(pool: &mut TermPool, first: TermId, last: TermId, step: TermId) -> Result<TermId, NoMemory>
    requires first { IsIn pool.old first }
    requires last { IsIn pool.old last }
    requires step { IsIn pool.old step }
    ensures grows { Grows pool.old pool.new }
    ensures is_in { IfOk result (λ id. IsIn pool.new id) }
    ensures tree { IfOk result (λ id. tree_of pool.new id ≡ loops.fits (tree_of pool.old first)
        (tree_of pool.old last) (tree_of pool.old step)) }
{
    let begins = positive(pool, first)?;
    let goes_up = pool.binary(BuiltIn::AtMost, first, last)?;
    let steps = positive(pool, step)?;
    let all = all_three(pool, begins, goes_up, steps)?;
    Ok(all)
}

/// Without 77 the parameters of a DO must fit.
pub fn check_loop(
    walk: &mut Walk,
    card: u32,
    first: TermId,
    last: TermId,
    step: TermId,
) -> Result<(), NoMemory>
    requires well { IsWalk walk.old }
    requires first { IsIn walk.old.pool first }
    requires last { IsIn walk.old.pool last }
    requires step { IsIn walk.old.pool step }
    ensures on { Follows walk.old walk.new }
    ensures did { OnOk result (Does (moment walk.old) (λ w. checked w LoopCheck card
        (loops.fits (tree_of walk.old.pool first) (tree_of walk.old.pool last)
        (tree_of walk.old.pool step))) (moment walk.new) tt) }
{
    let Ok(goal) = fits(&mut walk.pool, first, last, step) else {
        return Err(NoMemory);
    };
    walk.check(Kind::LoopCheck, card, goal)?;
    Ok(())
}

/// Under 77 the step of a DO must be 1 or more.
pub fn check_step(walk: &mut Walk, card: u32, step: TermId) -> Result<(), NoMemory>
    requires well { IsWalk walk.old }
    requires step { IsIn walk.old.pool step }
    ensures on { Follows walk.old walk.new }
    ensures did { OnOk result (Does (moment walk.old) (λ w. checked w LoopCheck card
        (make2 of_terms AtMost (natural_tree of_terms 1) (tree_of walk.old.pool step)))
        (moment walk.new) tt) }
{
    let Ok(goal) = positive(&mut walk.pool, step) else {
        return Err(NoMemory);
    };
    walk.check(Kind::LoopCheck, card, goal)?;
    Ok(())
}

/// The sum of the variable of a DO and its step, by which the DO is tested; it must be in range.
pub fn next_sum(
    walk: &mut Walk,
    bound: u64,
    card: u32,
    variable: &Name,
    step: Option<Param>,
) -> Result<TermId, NoMemory>
    requires { IsWalk walk.old }
    ensures on { Follows walk.old walk.new }
    ensures is_in { IfOk result (λ id. IsIn walk.new.pool id) }
    ensures did { IfOk result (λ id. DoesWithin bound (moment walk.old)
        (λ w. loops.next_sum w card (moment walk.old).now variable.now step) (moment walk.new)
        (tree_of walk.new.pool id)) }
{
    let value = read_name(walk, card, variable)?;
    let by = step_value(walk, bound, card, step)?;
    let sum = operate(walk, card, BinOp::Add, value, by)?;
    Ok(sum)
}
