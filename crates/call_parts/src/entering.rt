// The entry of a called unit.
ghost use Rattle.std.specs.Prelude.{◌≡◌, length, IfOk};
ghost use Rattle.fort_model.specs.Program.{Program};
ghost use Rattle.path_scene.specs.Scenes.{IsReady};
ghost use Rattle.call_parts.specs.Parts.{Entered};
ghost use Rattle.walk_operands.specs.Operands.{AreOperandsIn, operand_trees};
ghost use Rattle.walk_setting.specs.Settings.{seen_from};
ghost use Rattle.walk_state.specs.Moments.{Follows, IsWalk, moment};

use crate::called::Called;
use call_facts::check_input;
use call_frames::{Frame, enter};
use edge_io::NoMemory;
use unit_notes::input_of;
use walk_operands::{Operand, terms_of};
use walk_state::Walk;

/// The names of the called unit stand for the actuals, and its INPUT is checked.
pub fn enter_unit(walk: &mut Walk, called: &Called, operands: &[Operand]) -> Result<Frame, NoMemory>
    requires well { IsWalk walk.old }
    requires ready { (p : Program) × IsReady walk.old.pool called.now.setting.now.scene.now p }
    requires operands { AreOperandsIn (length walk.old.pool) operands.now }
    ensures on { Follows walk.old walk.new }
    ensures entered { IfOk result (λ frame. (p : Program)
        → IsReady walk.old.pool called.now.setting.now.scene.now p
        → Entered (seen_from called.now.setting.now p) called.now.card called.now.number
        called.now.callee.now.unit.now (operand_trees walk.old.pool operands.now)
        (moment walk.old) walk.new.pool (moment walk.new) frame) }
{
    let Ok(terms) = terms_of(walk.alloc, operands) else {
        return Err(NoMemory);
    };
    let frame = enter(walk, called.callee, terms.as_slice())?;
    let input = input_of(called.setting.scene, called.number);
    check_input(
        walk,
        called.card,
        &frame.names,
        frame.entry.as_slice(),
        input,
    )?;
    Ok(frame)
}
