// The terms of conditions.
ghost use Rattle.std.specs.Prelude.{◌≡◌, length, map, IfOk};
ghost use Rattle.formula.specs.Pool.{AllBelow, Grows, IsIn, tree_of};
ghost use Rattle.event_text.specs.Conditions.{IsConditionIn, condition_tree};
ghost use Rattle.try_lines.specs.Tries.{condition_term, hyps_term};

use edge_io::NoMemory;
use formula::{Args, BuiltIn, Func, TermId, TermPool};
use fort_syntax::Condition;
use std::alloc::Global;

/// The term of hypotheses.
fn hyps_term(alloc: Global, pool: &mut TermPool, hyps: &[TermId]) -> Result<TermId, NoMemory>
    requires { AllBelow (length pool.old) hyps.now }
    ensures grows { Grows pool.old pool.new }
    ensures is_in { IfOk result (λ id. IsIn pool.new id) }
    ensures tree { IfOk result (λ id. tree_of pool.new id ≡ hyps_term (map (tree_of pool.old) hyps.now)) }
{
    if hyps.is_empty() {
        return pool.truth(true);
    }
    let Ok(args) = Args::new(alloc, hyps) else {
        return Err(NoMemory);
    };
    pool.apply(Func::BuiltIn(BuiltIn::And), args)
}

/// The term of a condition: its hypotheses imply its goal.
pub(crate) fn term_of(
    alloc: Global,
    pool: &mut TermPool,
    condition: &Condition,
) -> Result<TermId, NoMemory>
    requires { IsConditionIn pool.old condition.now }
    ensures grows { Grows pool.old pool.new }
    ensures is_in { IfOk result (λ id. IsIn pool.new id) }
    ensures tree { IfOk result (λ id. tree_of pool.new id ≡ condition_term
        (condition_tree pool.old condition.now)) }
{
    let Ok(hyps) = hyps_term(alloc, pool, condition.hyps.as_slice()) else {
        return Err(NoMemory);
    };
    pool.binary(BuiltIn::Implies, hyps, condition.goal)
}
