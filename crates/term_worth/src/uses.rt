// Uses of definitions.
ghost use Rattle.std.specs.Prelude.{◌≡◌, ◌≢◌, ◌<◌, ◌-◌, ◌∷◌, None, Some, List, OnOk, Err, MatchOption};
ghost use Rattle.formula.specs.Adding.{definition_at, AreBodiesIn};
ghost use Rattle.formula.specs.Bounded.{spent};
ghost use Rattle.term_worth.specs.Machine.{newest, all_but, first_held, held_num, chosen_id, IsWhole, Does, meaning_with};
ghost use Rattle.formula.specs.declared.definition.Definition.{Definition};
ghost use Rattle.formula.specs.declared.function.Func.TheVariants.{Defined};
ghost use Rattle.term_worth.specs.declared.machine.Scope.TheVariants as scope;
ghost use Rattle.term_worth.specs.declared.machine.Task.TheVariants as task;
ghost use Rattle.formula.specs.declared.node.Node.{Node};
ghost use Rattle.formula.specs.declared.value.Value.{Value};
ghost use Rattle.formula.specs.declared.word.Word.{Word};

use crate::Worth;
use crate::machine::{
    Held, Machine, Parameters, Scope, Task, first, newest, replace_newest, take_newest,
};
use crate::parameters::parameters_of;
use edge_io::{Keys, NoMemory};
use formula::{Body, Definition, Definitions, TermId};
use std::alloc::Global;
use std::mem::replace;

/// The definition of that number, where there is one.
pub fn definition_at(definitions: &Definitions, k: usize) -> Option<&Definition>
    ensures { MatchOption result (definition_at definitions.now k ≡ None)
        (λ d. definition_at definitions.now k ≡ Some d.now) }
{
    if k == 0 || k > definitions.count() {
        return None;
    }
    Some(definitions.get(k))
}

/// The term that a use comes to, by the first argument.
fn chosen(body: Body, first: Held) -> TermId
    ensures { result ≡ chosen_id body (held_num first) }
{
    match body {
        Body::Plain(term) => term,
        Body::Counting(base, step) => match first {
            Held::Int(n) => { if n <= 0 { base } else { step } }
            _ => base,
        },
    }
}

/// Uses a definition with these parameters and this body: a turn is taken, and the body comes next,
/// with the newest so many values as the arguments.
fn enter(
    alloc: Global,
    machine: &mut Machine,
    params: Parameters,
    body: Body,
    count: usize,
) -> Result<(), NoMemory>
    requires { 0 < machine.old.turns }
    ensures { OnOk result (machine.new ≡ record {
      scope = scope.Arguments params
          (newest count machine.old.values);
      turns = machine.old.turns - 1;
      tasks = task.Eval
          (chosen_id body (held_num (first_held (newest count machine.old.values)))) ∷ task.Leave
          machine.old.scope ∷ machine.old.tasks;
      values = all_but count machine.old.values;
      made = machine.old.made;
    }) }
{
    let args = newest(machine.values.as_slice(), count);
    let id = chosen(body, first(args));
    let Ok(held) = Vec::from_slice(alloc, args) else {
        return Err(NoMemory);
    };
    take_newest(machine, count);
    let inner = Scope::Arguments(params, edge_io::List::from_vec(held));
    let outer = replace(&mut machine.scope, inner);
    machine.tasks.push(Task::Leave(outer))?;
    machine.tasks.push(Task::Eval(id))?;
    machine.turns -= 1;
    Ok(())
}

/// Uses the definition of a number, where there is one; else the value is undefined. That takes a
/// turn.
pub fn use_definition(
    alloc: Global,
    keys: Keys,
    definitions: &Definitions,
    machine: &mut Machine,
    k: usize,
    count: usize,
) -> Result<(), Worth>
    ensures ok { OnOk result ((pool : List Node) (sheet : List (Word × Value))
        → AreBodiesIn pool definitions.now → IsWhole pool machine.old
        → Does pool definitions.now sheet (task.Combine (Defined k) count) machine.old
        machine.new) }
    ensures spent { result ≡ Err Worth.Spent → (pool : List Node) (sheet : List (Word × Value))
        → meaning_with pool definitions.now sheet (task.Combine (Defined k) count) machine.old
        ≡ spent }
    ensures not_beyond { result ≢ Err Worth.Beyond }
{
    if machine.turns == 0 {
        return Err(Worth::Spent);
    }
    match definition_at(definitions, k) {
        None => {
            machine.turns -= 1;
            replace_newest(machine, count, Held::Undefined)?;
        }
        Some(definition) => {
            let params = parameters_of(alloc, keys, k, definition.params.as_slice())?;
            enter(alloc, machine, params, definition.body, count)?;
        }
    }
    Ok(())
}
