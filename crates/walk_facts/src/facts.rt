// Facts: what the choices of a path say of values.
ghost use Rattle.std.specs.Prelude.{◌≡◌, OnOk};
ghost use Rattle.formula.specs.Pool.{IsIn, tree_of};
ghost use Rattle.formula.specs.declared.function.BuiltIn.TheVariants.{AtMost, Equal, Less};
ghost use Rattle.fort_model.specs.Senses.{make2, natural as natural_tree, negated as negated_tree, of_terms};
ghost use Rattle.fort_model.specs.WalkStmt.{taken};
ghost use Rattle.walk_state.specs.Moments.{Follows, IsWalk, moment};
ghost use Rattle.walk_values.specs.Parts.{Does};

use edge_io::NoMemory;
use formula::{BuiltIn, TermId};
use walk_state::Walk;
use walk_terms::{natural, negated};

/// A condition is true.
pub fn take_true(walk: &mut Walk, a: TermId) -> Result<(), NoMemory>
    requires well { IsWalk walk.old }
    requires a { IsIn walk.old.pool a }
    ensures on { Follows walk.old walk.new }
    ensures did { OnOk result (Does (moment walk.old) (λ w. taken w (tree_of walk.old.pool a))
        (moment walk.new) tt) }
{
    walk.take(a)?;
    Ok(())
}

/// A condition is false.
pub fn take_not(walk: &mut Walk, a: TermId) -> Result<(), NoMemory>
    requires well { IsWalk walk.old }
    requires a { IsIn walk.old.pool a }
    ensures on { Follows walk.old walk.new }
    ensures did { OnOk result (Does (moment walk.old) (λ w. taken w (negated_tree of_terms
        (tree_of walk.old.pool a))) (moment walk.new) tt) }
{
    let Ok(fact) = negated(&mut walk.pool, a) else {
        return Err(NoMemory);
    };
    walk.take(fact)?;
    Ok(())
}

/// A number is at most another one.
pub fn take_at_most(walk: &mut Walk, a: TermId, b: TermId) -> Result<(), NoMemory>
    requires well { IsWalk walk.old }
    requires a { IsIn walk.old.pool a }
    requires b { IsIn walk.old.pool b }
    ensures on { Follows walk.old walk.new }
    ensures did { OnOk result (Does (moment walk.old) (λ w. taken w (make2 of_terms AtMost
        (tree_of walk.old.pool a) (tree_of walk.old.pool b))) (moment walk.new) tt) }
{
    let Ok(fact) = walk.pool.binary(BuiltIn::AtMost, a, b) else {
        return Err(NoMemory);
    };
    walk.take(fact)?;
    Ok(())
}

/// A number is less than another one.
pub fn take_less(walk: &mut Walk, a: TermId, b: TermId) -> Result<(), NoMemory>
    requires well { IsWalk walk.old }
    requires a { IsIn walk.old.pool a }
    requires b { IsIn walk.old.pool b }
    ensures on { Follows walk.old walk.new }
    ensures did { OnOk result (Does (moment walk.old) (λ w. taken w (make2 of_terms Less
        (tree_of walk.old.pool a) (tree_of walk.old.pool b))) (moment walk.new) tt) }
{
    let Ok(fact) = walk.pool.binary(BuiltIn::Less, a, b) else {
        return Err(NoMemory);
    };
    walk.take(fact)?;
    Ok(())
}

/// A number is a given natural one.
pub fn take_equals(walk: &mut Walk, a: TermId, n: u64) -> Result<(), NoMemory>
    requires well { IsWalk walk.old }
    requires a { IsIn walk.old.pool a }
    ensures on { Follows walk.old walk.new }
    ensures did { OnOk result (Does (moment walk.old) (λ w. taken w (make2 of_terms Equal
        (tree_of walk.old.pool a) (natural_tree of_terms n))) (moment walk.new) tt) }
{
    let Ok(number) = natural(&mut walk.pool, n) else {
        return Err(NoMemory);
    };
    let Ok(fact) = walk.pool.binary(BuiltIn::Equal, a, number) else {
        return Err(NoMemory);
    };
    walk.take(fact)?;
    Ok(())
}
