// What a call answers.
ghost use Rattle.std.specs.Prelude.{◌≡◌, length, IfOk, OnOk};
ghost use Rattle.call_facts.specs.Calls.{called as answered};
ghost use Rattle.formula.specs.Pool.{IsIn, tree_of};
ghost use Rattle.fort_model.specs.Program.{Program};
ghost use Rattle.fort_model.specs.WalkCalls.{changed, hits};
ghost use Rattle.path_scene.specs.Scenes.{IsReady, IsScene};
ghost use Rattle.call_parts.specs.Parts.{TakesFacts};
ghost use Rattle.walk_operands.specs.Operands.{operand_trees};
ghost use Rattle.walk_setting.specs.Settings.{seen_from};
ghost use Rattle.walk_state.specs.Moments.{Follows, IsWalk, moment, with_names};

use crate::called::Called;
use call_facts::{smash, take_result, take_sorts};
use call_hits::call_hits;
use edge_io::{List, NoMemory};
use formula::TermId;
use fort_syntax::Name;
use name_tables::NameSet;
use walk_operands::{Operand, bare_names};
use walk_state::Walk;

/// The names of the caller that the call smashes.
fn names_hit(walk: &Walk, called: &Called, operands: &[Operand]) -> Result<List<Name>, NoMemory>
    ensures { IfOk result (λ names. (p : Program)
        → IsScene walk.now.pool called.now.setting.now.scene.now p
        → names ≡ hits (seen_from called.now.setting.now p) called.now.number
        called.now.callee.now.unit.now (operand_trees walk.now.pool operands.now)) }
{
    let Ok(bare) = bare_names(walk.alloc, operands) else {
        return Err(NoMemory);
    };
    let caller = called.setting.book;
    match called.setting.scene.smashes.get(called.number) {
        Some(smashed) => call_hits(walk.alloc, caller, called.callee, smashed, bare.as_slice()),
        None => {
            let none = NameSet::new(walk.alloc, walk.pool.keys());
            call_hits(walk.alloc, caller, called.callee, &none, bare.as_slice())
        }
    }
}

/// The smashed names of the caller stand for what the call of a number answers.
pub fn smash_names(
    walk: &mut Walk,
    called: &Called,
    operands: &[Operand],
    call: u32,
) -> Result<List<Name>, NoMemory>
    requires well { IsWalk walk.old }
    ensures on { Follows walk.old walk.new }
    ensures names { IfOk result (λ names. (p : Program)
        → IsScene walk.old.pool called.now.setting.now.scene.now p
        → names ≡ hits (seen_from called.now.setting.now p) called.now.number
        called.now.callee.now.unit.now (operand_trees walk.old.pool operands.now)) }
    ensures smashed { IfOk result (λ names. (p : Program) → moment walk.new ≡ with_names
        (moment walk.old) (changed (seen_from called.now.setting.now p) names (answered call)
        (moment walk.old).now)) }
{
    let names = names_hit(walk, called, operands)?;
    smash(walk, call, names.as_slice())?;
    Ok(names)
}

/// The smashed names have their types, and the value of a FUNCTION is defined and has its type.
pub fn take_facts(
    walk: &mut Walk,
    called: &Called,
    names: &[Name],
    call: u32,
) -> Result<TermId, NoMemory>
    requires well { IsWalk walk.old }
    requires ready { (p : Program) × IsReady walk.old.pool called.now.setting.now.scene.now p }
    ensures on { Follows walk.old walk.new }
    ensures is_in { IfOk result (λ id. IsIn walk.new.pool id) }
    ensures tree { IfOk result (λ id. tree_of walk.new.pool id
        ≡ answered call called.now.callee.now.unit.now.name) }
    ensures facts { OnOk result ((p : Program) → TakesFacts (seen_from called.now.setting.now p)
        called.now.callee.now.unit.now names.now (answered call) (moment walk.old)
        (moment walk.new)) }
{
    let value = walk.answer(call, &called.callee.unit.name)?;
    take_sorts(walk, called.setting.book, names)?;
    take_result(walk, called.callee.unit.sort, value)?;
    Ok(value)
}
