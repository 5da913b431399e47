// What holds behind a called unit.
ghost use Rattle.std.specs.Prelude.{◌≡◌, length, map, IfOk, OnOk};
ghost use Rattle.formula.specs.Pool.{AllBelow, IsIn, tree_of};
ghost use Rattle.formula.specs.Tree.{Tree};
ghost use Rattle.call_frames.specs.Frames.{HasEntry};
ghost use Rattle.fort_model.specs.Program.{Program};
ghost use Rattle.fort_model.specs.Seen.{Named};
ghost use Rattle.path_scene.specs.Scenes.{IsReady};
ghost use Rattle.call_parts.specs.Parts.{TakesOutput, after_call};
ghost use Rattle.walk_names.specs.Names.{IsNames};
ghost use Rattle.walk_operands.specs.Operands.{AreOperandsIn, IsOperandIn, operand_tree, operand_trees};
ghost use Rattle.walk_setting.specs.Settings.{seen_from};
ghost use Rattle.walk_state.specs.Moments.{Follows, IsWalk, moment};

use crate::called::Called;
use call_facts::take_output;
use call_frames::{Frame, leave};
use edge_io::NoMemory;
use formula::TermId;
use unit_notes::output_of;
use walk_operands::Operand;
use walk_state::Walk;

/// What an actual stands for after a call: a bare name for what it does now.
fn term_after(walk: &mut Walk, operand: &Operand) -> Result<TermId, NoMemory>
    requires well { IsWalk walk.old }
    requires operand { IsOperandIn (length walk.old.pool) operand.now }
    ensures on { Follows walk.old walk.new }
    ensures same { moment walk.new ≡ moment walk.old }
    ensures is_in { IfOk result (λ id. IsIn walk.new.pool id) }
    ensures tree { IfOk result (λ id. tree_of walk.new.pool id ≡ after_call (moment walk.old).now
        (operand_tree walk.old.pool operand.now)) }
{
    match operand {
        Operand::Bare(name, _) => walk.term(name),
        Operand::Part(term) => Ok(*term),
        Operand::Computed(term) => Ok(*term),
    }
}

/// What actuals stand for after a call, in order.
fn terms_after(walk: &mut Walk, operands: &[Operand]) -> Result<Vec<TermId>, NoMemory>
    requires well { IsWalk walk.old }
    requires operands { AreOperandsIn (length walk.old.pool) operands.now }
    ensures on { Follows walk.old walk.new }
    ensures same { moment walk.new ≡ moment walk.old }
    ensures below { IfOk result (λ terms. AllBelow (length walk.new.pool) terms.items) }
    ensures trees { IfOk result (λ terms. map (tree_of walk.new.pool) terms.items
        ≡ map (after_call (moment walk.old).now) (operand_trees walk.old.pool operands.now)) }
{
    let mut all = Vec::new(walk.alloc);
    for operand in operands {
        let term = term_after(walk, operand)?;
        let Ok(()) = all.push(term) else {
            return Err(NoMemory);
        };
    }
    Ok(all)
}

/// The terms of the OUTPUT are facts, where the names of the called unit stand for what the caller's do
/// now, and its own name for a value.
pub fn leave_unit(
    walk: &mut Walk,
    called: &Called,
    frame: &mut Frame,
    operands: &[Operand],
    value: TermId,
) -> Result<(), NoMemory>
    requires well { IsWalk walk.old }
    requires ready { (p : Program) × IsReady walk.old.pool called.now.setting.now.scene.now p }
    requires operands { AreOperandsIn (length walk.old.pool) operands.now }
    requires value { IsIn walk.old.pool value }
    requires names { IsNames walk.old.pool frame.old.names }
    requires entry { (told : Named Tree) × HasEntry walk.old.pool frame.old.names.table
        frame.old.entry.items called.now.callee.now.unit.now told }
    ensures on { Follows walk.old walk.new }
    ensures output { OnOk result ((p : Program) (told : Named Tree)
        → IsReady walk.old.pool called.now.setting.now.scene.now p
        → HasEntry walk.old.pool frame.old.names.table frame.old.entry.items
        called.now.callee.now.unit.now told → TakesOutput (seen_from called.now.setting.now p)
        called.now.number called.now.callee.now.unit.now (operand_trees walk.old.pool operands.now)
        told (tree_of walk.old.pool value) (moment walk.old) (moment walk.new)) }
{
    let terms = terms_after(walk, operands)?;
    leave(walk, frame, called.callee, terms.as_slice(), value)?;
    let output = output_of(called.setting.scene, called.number);
    take_output(walk, &frame.names, frame.entry.as_slice(), output)?;
    Ok(())
}
