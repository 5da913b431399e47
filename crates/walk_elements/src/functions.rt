// Intrinsic functions of values.
ghost use Rattle.std.specs.Prelude.{◌≡◌, ℕ, [], ◌∷◌, length, map, IfOk};
ghost use Rattle.formula.specs.Pool.{AllBelow, Grows, IsIn, tree_of};
ghost use Rattle.formula.specs.declared.function.BuiltIn.TheVariants.{Quotient};
ghost use Rattle.fort_syntax.specs.Names.{Absolute, Modulo};
ghost use Rattle.fort_syntax.specs.declared.unit.Unit.{Unit as Routine};
ghost use Rattle.fort_model.specs.Conditions.{sight};
ghost use Rattle.fort_model.specs.Program.{Program};
ghost use Rattle.fort_model.specs.Senses.{make2, of_terms};
ghost use Rattle.fort_model.specs.WalkExpr as steps;
ghost use Rattle.walk_state.specs.Moments.{Follows, IsWalk, moment};
ghost use Rattle.walk_values.specs.Parts.{Does};
ghost use Rattle.walk_elements.specs.Events.{greatest_or_least};

use edge_io::NoMemory;
use formula::{BuiltIn, TermId, TermPool};
use walk_state::Walk;
use walk_values::{divisor, ranged};

/// IABS of a value, which must be in range.
pub fn absolute(walk: &mut Walk, card: u32, a: TermId) -> Result<TermId, NoMemory>
    requires well { IsWalk walk.old }
    requires a { IsIn walk.old.pool a }
    ensures on { Follows walk.old walk.new }
    ensures is_in { IfOk result (λ id. IsIn walk.new.pool id) }
    ensures did { IfOk result (λ id. Does (moment walk.old)
        (λ w. steps.intrinsic_value w card Absolute (tree_of walk.old.pool a ∷ []))
        (moment walk.new) (tree_of walk.new.pool id)) }
{
    let Ok(value) = walk.pool.unary(BuiltIn::Absolute, a) else {
        return Err(NoMemory);
    };
    ranged(walk, card, value)?;
    Ok(value)
}

/// The quotient of two values must be in range.
fn quotient_ranged(walk: &mut Walk, card: u32, a: TermId, b: TermId) -> Result<TermId, NoMemory>
    requires well { IsWalk walk.old }
    requires a { IsIn walk.old.pool a }
    requires b { IsIn walk.old.pool b }
    ensures on { Follows walk.old walk.new }
    ensures did { IfOk result (λ id. Does (moment walk.old) (λ w. steps.ranged w card
        (make2 of_terms Quotient (tree_of walk.old.pool a) (tree_of walk.old.pool b)))
        (moment walk.new) (tree_of walk.new.pool id)) }
{
    let Ok(value) = walk.pool.binary(BuiltIn::Quotient, a, b) else {
        return Err(NoMemory);
    };
    ranged(walk, card, value)?;
    Ok(value)
}

/// MOD of two values: the second is not 0, and their quotient is in range.
pub fn modulo(walk: &mut Walk, card: u32, a: TermId, b: TermId) -> Result<TermId, NoMemory>
    requires well { IsWalk walk.old }
    requires a { IsIn walk.old.pool a }
    requires b { IsIn walk.old.pool b }
    ensures on { Follows walk.old walk.new }
    ensures is_in { IfOk result (λ id. IsIn walk.new.pool id) }
    ensures did { IfOk result (λ id. Does (moment walk.old)
        (λ w. steps.intrinsic_value w card Modulo (tree_of walk.old.pool a ∷ tree_of walk.old.pool
        b ∷ [])) (moment walk.new) (tree_of walk.new.pool id)) }
{
    divisor(walk, card, b)?;
    quotient_ranged(walk, card, a, b)?;
    let Ok(value) = walk.pool.binary(BuiltIn::Remainder, a, b) else {
        return Err(NoMemory);
    };
    Ok(value)
}

/// The greatest or the least of some values, by a function of two, from the left.
pub fn folded(
    pool: &mut TermPool,
    is_greatest: bool,
    first: TermId,
    others: &[TermId],
) -> Result<TermId, NoMemory>
    requires first { IsIn pool.old first }
    requires others { AllBelow (length pool.old) others.now }
    ensures grows { Grows pool.old pool.new }
    ensures is_in { IfOk result (λ id. IsIn pool.new id) }
    ensures tree { IfOk result (λ id. (p : Program) (i : ℕ) (u : Routine)
        → tree_of pool.new id ≡ steps.folded (sight of_terms p i u) (greatest_or_least is_greatest)
        (tree_of pool.old first) (map (tree_of pool.old) others.now)) }
{
    let [other, rest @ ..] = others else {
        return Ok(first);
    };
    let both = greater_or_less(pool, is_greatest, first, *other)?;
    let whole = folded(pool, is_greatest, both, rest)?;
    Ok(whole)
}

/// The greater or the lesser of two values.
fn greater_or_less(
    pool: &mut TermPool,
    is_greatest: bool,
    a: TermId,
    b: TermId,
) -> Result<TermId, NoMemory>
    requires a { IsIn pool.old a }
    requires b { IsIn pool.old b }
    ensures grows { Grows pool.old pool.new }
    ensures is_in { IfOk result (λ id. IsIn pool.new id) }
    ensures tree { IfOk result (λ id. tree_of pool.new id ≡ make2 of_terms
        (greatest_or_least is_greatest) (tree_of pool.old a) (tree_of pool.old b)) }
{
    if is_greatest {
        return pool.binary(BuiltIn::Maximum, a, b);
    }
    pool.binary(BuiltIn::Minimum, a, b)
}
