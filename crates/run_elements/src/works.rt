// Each instruction of expressions.
ghost use Rattle.std.specs.Prelude.{◌≡◌, ◌<◌, length};
ghost use Rattle.run_elements.specs.Elements.{ElementsAreObeyed, answer_to, answered, depth_of, did};

use crate::answers::{answer_of, answered};
use crate::changes::{assign, forget, place, skip_false, skip_true};
use run_shapes::Instr;
use run_state::{Setting, State};

/// Instructions of expressions do what the model says. It does nothing.
pub fn elements_are_obeyed()
    ensures { ElementsAreObeyed }
{}

/// Takes the number of values that gives way to one.
fn depth_of(instr: Instr) -> usize
    ensures { result ≡ depth_of instr }
{
    match instr {
        Instr::Value | Instr::Negate | Instr::Raise(_) | Instr::Negation => 1,
        Instr::Operation(_) | Instr::Comparison(_) | Instr::Both | Instr::Either => 2,
        Instr::BuiltIn(_, count) => count,
        _ => 0,
    }
}

/// Does what an instruction says that puts a value in the place of values.
fn answer(m: &mut State, setting: &Setting, instr: Instr)
    requires { length m.old.values.items < m.old.values.room }
    ensures { m.new ≡ answered (depth_of instr) (answer_to setting.now instr m.old) m.old }
{
    let value = answer_of(m, setting, instr);
    answered(m, depth_of(instr), value);
}

/// Does what an instruction says.
pub fn does(m: &mut State, setting: &Setting, instr: Instr)
    requires { length m.old.values.items < m.old.values.room }
    ensures { m.new ≡ did setting.now instr m.old }
{
    match instr {
        Instr::Place(slot) => place(m, slot),
        Instr::SkipFalse(count) => skip_false(m, setting, count),
        Instr::SkipTrue(count) => skip_true(m, setting, count),
        Instr::Forget => forget(m),
        Instr::Assigned => assign(m),
        _ => answer(m, setting, instr),
    }
}
