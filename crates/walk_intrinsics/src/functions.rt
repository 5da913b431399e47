// Intrinsic functions of several values.
ghost use Rattle.std.specs.Prelude.{◌≡◌, ℕ, length, map, IfOk};
ghost use Rattle.formula.specs.Pool.{AllBelow, IsIn, tree_of};
ghost use Rattle.fort_syntax.specs.Names as names;
ghost use Rattle.fort_model.specs.Seen.{see};
ghost use Rattle.fort_model.specs.Senses.{of_terms, undefined as undefined_tree};
ghost use Rattle.fort_model.specs.WalkExpr as steps;
ghost use Rattle.walk_state.specs.Moments.{Follows, IsWalk, moment};
ghost use Rattle.walk_values.specs.Parts.{Does};
ghost use Rattle.walk_intrinsics.specs.Functions.{greatest_or_least, meaning};

use crate::words::Function;
use edge_io::NoMemory;
use formula::TermId;
use walk_elements::{absolute, folded, modulo};
use walk_state::Walk;
use walk_terms::undefined;

/// A function of the wrong number of values comes to nothing.
fn nothing(walk: &mut Walk) -> Result<TermId, NoMemory>
    requires { IsWalk walk.old }
    ensures on { Follows walk.old walk.new }
    ensures is_in { IfOk result (λ id. IsIn walk.new.pool id) }
    ensures did { IfOk result (λ id. Does (moment walk.old) (λ w. see (undefined_tree of_terms))
        (moment walk.new) (tree_of walk.new.pool id)) }
{
    let Ok(id) = undefined(&mut walk.pool) else {
        return Err(NoMemory);
    };
    Ok(id)
}

/// IABS of some values.
fn absolute_of(walk: &mut Walk, card: u32, values: &[TermId]) -> Result<TermId, NoMemory>
    requires well { IsWalk walk.old }
    requires values { AllBelow (length walk.old.pool) values.now }
    ensures on { Follows walk.old walk.new }
    ensures is_in { IfOk result (λ id. IsIn walk.new.pool id) }
    ensures did { IfOk result (λ id. Does (moment walk.old)
        (λ w. steps.intrinsic_value w card names.Absolute (map (tree_of walk.old.pool) values.now))
        (moment walk.new) (tree_of walk.new.pool id)) }
{
    let count = values.len();
    if count != 1 {
        let none = nothing(walk)?;
        return Ok(none);
    }
    let value = absolute(walk, card, values[0])?;
    Ok(value)
}

/// MOD of some values.
fn modulo_of(walk: &mut Walk, card: u32, values: &[TermId]) -> Result<TermId, NoMemory>
    requires well { IsWalk walk.old }
    requires values { AllBelow (length walk.old.pool) values.now }
    ensures on { Follows walk.old walk.new }
    ensures is_in { IfOk result (λ id. IsIn walk.new.pool id) }
    ensures did { IfOk result (λ id. Does (moment walk.old)
        (λ w. steps.intrinsic_value w card names.Modulo (map (tree_of walk.old.pool) values.now))
        (moment walk.new) (tree_of walk.new.pool id)) }
{
    let count = values.len();
    if count != 2 {
        let none = nothing(walk)?;
        return Ok(none);
    }
    let value = modulo(walk, card, values[0], values[1])?;
    Ok(value)
}

/// MAX0 or MIN0 of some values.
fn folded_of(walk: &mut Walk, is_greatest: bool, values: &[TermId]) -> Result<TermId, NoMemory>
    requires well { IsWalk walk.old }
    requires values { AllBelow (length walk.old.pool) values.now }
    ensures on { Follows walk.old walk.new }
    ensures is_in { IfOk result (λ id. IsIn walk.new.pool id) }
    ensures did { IfOk result (λ id. (card : ℕ) → Does (moment walk.old)
        (λ w. steps.intrinsic_value w card (greatest_or_least is_greatest)
        (map (tree_of walk.old.pool) values.now)) (moment walk.new) (tree_of walk.new.pool id)) }
{
    let [first, rest @ ..] = values else {
        let none = nothing(walk)?;
        return Ok(none);
    };
    let Ok(value) = folded(&mut walk.pool, is_greatest, *first, rest) else {
        return Err(NoMemory);
    };
    Ok(value)
}

/// An intrinsic function of some values: IABS of one, MOD of two, MAX0 and MIN0 of one or more; of
/// any other number of values it comes to nothing.
pub fn intrinsic_value(
    walk: &mut Walk,
    card: u32,
    function: Function,
    values: &[TermId],
) -> Result<TermId, NoMemory>
    requires well { IsWalk walk.old }
    requires values { AllBelow (length walk.old.pool) values.now }
    ensures on { Follows walk.old walk.new }
    ensures is_in { IfOk result (λ id. IsIn walk.new.pool id) }
    ensures did { IfOk result (λ id. Does (moment walk.old) (λ w. steps.intrinsic_value w card
        (meaning function) (map (tree_of walk.old.pool) values.now)) (moment walk.new)
        (tree_of walk.new.pool id)) }
{
    match function {
        Function::Absolute => {
            let value = absolute_of(walk, card, values)?;
            Ok(value)
        }
        Function::Modulo => {
            let value = modulo_of(walk, card, values)?;
            Ok(value)
        }
        Function::Greatest => {
            let value = folded_of(walk, true, values)?;
            Ok(value)
        }
        Function::Least => {
            let value = folded_of(walk, false, values)?;
            Ok(value)
        }
    }
}
