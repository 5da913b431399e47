// Checks of values.
ghost use Rattle.std.specs.Prelude.{◌≡◌, IfOk, OnOk};
ghost use Rattle.formula.specs.Pool.{IsIn, tree_of};
ghost use Rattle.fort_model.specs.WalkExpr as steps;
ghost use Rattle.formula.specs.declared.function.BuiltIn.TheVariants.{AtMost};
ghost use Rattle.fort_syntax.specs.declared.condition.Kind.TheVariants.{RangeCheck};
ghost use Rattle.fort_model.specs.Events.{Check};
ghost use Rattle.fort_model.specs.Senses.{make2, of_terms};
ghost use Rattle.fort_model.specs.Senses.{greatest_integer as greatest_tree};
ghost use Rattle.walk_state.specs.Moments.{Follows, IsWalk, moment, with_event};
ghost use Rattle.walk_values.specs.Parts.{Does, DoesWithin};

use edge_io::NoMemory;
use formula::{BuiltIn, TermId};
use fort_syntax::Kind;
use walk_state::Walk;
use walk_terms::{defined, greatest_integer, in_range, natural, not_zero};

/// A value is read, and must be defined.
pub fn read(walk: &mut Walk, card: u32, value: TermId) -> Result<(), NoMemory>
    requires well { IsWalk walk.old }
    requires value { IsIn walk.old.pool value }
    ensures on { Follows walk.old walk.new }
    ensures did { OnOk result (Does (moment walk.old) (λ w. steps.read w card
        (tree_of walk.old.pool value)) (moment walk.new) (tree_of walk.old.pool value)) }
{
    let Ok(goal) = defined(&mut walk.pool, value) else {
        return Err(NoMemory);
    };
    walk.check(Kind::DefinedCheck, card, goal)?;
    Ok(())
}

/// A number that was computed must be one of the processor's integers.
pub fn ranged(walk: &mut Walk, card: u32, number: TermId) -> Result<(), NoMemory>
    requires well { IsWalk walk.old }
    requires number { IsIn walk.old.pool number }
    ensures on { Follows walk.old walk.new }
    ensures did { OnOk result (Does (moment walk.old) (λ w. steps.ranged w card
        (tree_of walk.old.pool number)) (moment walk.new) (tree_of walk.old.pool number)) }
{
    let Ok(goal) = in_range(&mut walk.pool, number) else {
        return Err(NoMemory);
    };
    walk.check(Kind::RangeCheck, card, goal)?;
    Ok(())
}

/// A divisor must not be 0.
pub fn divisor(walk: &mut Walk, card: u32, number: TermId) -> Result<(), NoMemory>
    requires well { IsWalk walk.old }
    requires number { IsIn walk.old.pool number }
    ensures on { Follows walk.old walk.new }
    ensures did { OnOk result (Does (moment walk.old) (λ w. steps.divisor w card
        (tree_of walk.old.pool number)) (moment walk.new) tt) }
{
    let Ok(goal) = not_zero(&mut walk.pool, number) else {
        return Err(NoMemory);
    };
    walk.check(Kind::DivisorCheck, card, goal)?;
    Ok(())
}

/// A number must be at most the greatest integer of the processor.
fn not_too_great(walk: &mut Walk, card: u32, number: TermId) -> Result<(), NoMemory>
    requires well { IsWalk walk.old }
    requires number { IsIn walk.old.pool number }
    ensures on { Follows walk.old walk.new }
    ensures met { OnOk result (moment walk.new ≡ with_event (moment walk.old)
        (Check RangeCheck card (make2 of_terms AtMost (tree_of walk.old.pool number)
        (greatest_tree of_terms)))) }
{
    let Ok(greatest) = greatest_integer(&mut walk.pool) else {
        return Err(NoMemory);
    };
    let Ok(goal) = walk.pool.binary(BuiltIn::AtMost, number, greatest) else {
        return Err(NoMemory);
    };
    walk.check(Kind::RangeCheck, card, goal)?;
    Ok(())
}

/// A constant, which is checked where it is above the bound up to which each processor has all
/// integers.
pub fn constant(walk: &mut Walk, bound: u64, card: u32, c: u64) -> Result<TermId, NoMemory>
    requires { IsWalk walk.old }
    ensures on { Follows walk.old walk.new }
    ensures is_in { IfOk result (λ id. IsIn walk.new.pool id) }
    ensures did { IfOk result (λ id. DoesWithin bound (moment walk.old)
        (λ w. steps.constant w card c) (moment walk.new) (tree_of walk.new.pool id)) }
{
    let Ok(number) = natural(&mut walk.pool, c) else {
        return Err(NoMemory);
    };
    if bound >= c {
        return Ok(number);
    }
    not_too_great(walk, card, number)?;
    Ok(number)
}
