// Calls.
ghost use Rattle.std.specs.Prelude.{◌≡◌, Some, length, IfOk};
ghost use Rattle.formula.specs.Pool.{IsIn, tree_of};
ghost use Rattle.fort_model.specs.Program.{Program};
ghost use Rattle.fort_model.specs.Senses.{of_terms, undefined as no_value};
ghost use Rattle.fort_model.specs.WalkCalls as walks;
ghost use Rattle.fort_syntax.specs.Names.{function};
ghost use Rattle.fort_syntax.specs.declared.name.Name.{Name as Text};
ghost use Rattle.path_scene.specs.Scenes.{IsReady};
ghost use Rattle.walk_calls.specs.Calls.{CallsIn, value_of_call, unit_call};
ghost use Rattle.walk_operands.specs.Operands.{AreOperandsIn, operand_trees};
ghost use Rattle.walk_setting.specs.Settings.{DoesIn};
ghost use Rattle.walk_state.specs.Moments.{Follows, IsWalk, moment};

use call_parts::{Called, enter_unit, leave_unit, smash_names, take_facts};
use edge_io::NoMemory;
use formula::TermId;
use walk_operands::Operand;
use walk_setting::Setting;
use walk_state::Walk;
use walk_terms::undefined;

/// A call of no unit gives nothing.
fn call_nothing(walk: &mut Walk) -> Result<TermId, NoMemory>
    requires { IsWalk walk.old }
    ensures on { Follows walk.old walk.new }
    ensures same { moment walk.new ≡ moment walk.old }
    ensures is_in { IfOk result (λ id. IsIn walk.new.pool id) }
    ensures tree { IfOk result (λ id. tree_of walk.new.pool id ≡ no_value of_terms) }
{
    let Ok(none) = undefined(&mut walk.pool) else {
        return Err(NoMemory);
    };
    Ok(none)
}

/// A call of a unit.
fn call_unit(walk: &mut Walk, called: &Called, operands: &[Operand]) -> Result<TermId, NoMemory>
    requires well { IsWalk walk.old }
    requires ready { (p : Program) × IsReady walk.old.pool called.now.setting.now.scene.now p }
    requires operands { AreOperandsIn (length walk.old.pool) operands.now }
    ensures on { Follows walk.old walk.new }
    ensures is_in { IfOk result (λ id. IsIn walk.new.pool id) }
    ensures did { IfOk result (λ id. CallsIn walk.old.pool called.now.setting.now (moment walk.old)
        (λ w. unit_call w called.now.card called.now.number called.now.callee.now.unit.now
        (moment walk.old).now (operand_trees walk.old.pool operands.now)) (moment walk.new)
        (tree_of walk.new.pool id)) }
{
    let call = walk.next_call()?;
    let mut frame = enter_unit(walk, called, operands)?;
    let names = smash_names(walk, called, operands, call)?;
    let value = take_facts(walk, called, names.as_slice(), call)?;
    leave_unit(walk, called, &mut frame, operands, value)?;
    Ok(value)
}

/// A call of the unit of a number; of nothing, where there is no such unit.
fn call_number(
    walk: &mut Walk,
    setting: &Setting,
    card: u32,
    number: usize,
    operands: &[Operand],
) -> Result<TermId, NoMemory>
    requires well { IsWalk walk.old }
    requires ready { (p : Program) × IsReady walk.old.pool setting.now.scene.now p }
    requires operands { AreOperandsIn (length walk.old.pool) operands.now }
    ensures on { Follows walk.old walk.new }
    ensures is_in { IfOk result (λ id. IsIn walk.new.pool id) }
    ensures did { IfOk result (λ id. CallsIn walk.old.pool setting.now (moment walk.old)
        (λ w. walks.call w card (Some number) (moment walk.old).now
        (operand_trees walk.old.pool operands.now)) (moment walk.new) (tree_of walk.new.pool id)) }
{
    if number >= setting.scene.books.units.len() {
        let Ok(none) = call_nothing(walk) else {
            return Err(NoMemory);
        };
        return Ok(none);
    }
    let called = Called {
        setting,
        card,
        number,
        callee: setting.scene.books.book(number),
    };
    let Ok(value) = call_unit(walk, &called, operands) else {
        return Err(NoMemory);
    };
    Ok(value)
}

/// A call at a card of the unit of a number, from 0, with operands as actuals: the answer is the value
/// that a FUNCTION gives. Behind it names stand for what they do after the call. With no number, or
/// that of no unit, nothing is met.
pub fn call(
    walk: &mut Walk,
    setting: &Setting,
    card: u32,
    callee: Option<usize>,
    operands: &[Operand],
) -> Result<TermId, NoMemory>
    requires well { IsWalk walk.old }
    requires ready { (p : Program) × IsReady walk.old.pool setting.now.scene.now p }
    requires operands { AreOperandsIn (length walk.old.pool) operands.now }
    ensures on { Follows walk.old walk.new }
    ensures is_in { IfOk result (λ id. IsIn walk.new.pool id) }
    ensures did { IfOk result (λ id. CallsIn walk.old.pool setting.now (moment walk.old)
        (λ w. walks.call w card callee (moment walk.old).now
        (operand_trees walk.old.pool operands.now)) (moment walk.new) (tree_of walk.new.pool id)) }
{
    match callee {
        Some(number) => call_number(walk, setting, card, number, operands),
        None => call_nothing(walk),
    }
}

/// A reference to a FUNCTION in an expression, as `call`; names stand for what they did before, since a
/// FUNCTION smashes none of its caller's.
pub fn refer(
    walk: &mut Walk,
    setting: &Setting,
    card: u32,
    callee: Option<usize>,
    operands: &[Operand],
) -> Result<TermId, NoMemory>
    requires well { IsWalk walk.old }
    requires ready { (p : Program) × IsReady walk.old.pool setting.now.scene.now p }
    requires operands { AreOperandsIn (length walk.old.pool) operands.now }
    requires function { (f : Text) × (callee ≡ function setting.now.scene.now.books.now.units.now f) }
    ensures on { Follows walk.old walk.new }
    ensures is_in { IfOk result (λ id. IsIn walk.new.pool id) }
    ensures did { IfOk result (λ id. DoesIn walk.old.pool setting.now (moment walk.old)
        (λ w. value_of_call w card callee (moment walk.old).now
        (operand_trees walk.old.pool operands.now)) (moment walk.new) (tree_of walk.new.pool id)) }
{
    call(walk, setting, card, callee, operands)
}
