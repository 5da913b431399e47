// A function and its arguments, taken apart.
ghost use Rattle.std.specs.Prelude.{◌≡◌, ◌≤◌, ◌∷◌, ◌++◌, length, map, drop, OnOk};
ghost use Rattle.term_worth.specs.Machine.{is_branch, taken_apart};
ghost use Rattle.term_worth.specs.declared.machine.Task.TheVariants as task;

use crate::machine::{Machine, Task};
use edge_io::NoMemory;
use formula::{BuiltIn, Func, TermId};

/// Whether a function is IF, with its three arguments.
pub fn is_branch(f: Func, args: &[TermId]) -> bool
    ensures { result ≡ is_branch f args.now }
{
    match f {
        Func::BuiltIn(BuiltIn::If) => match args {
            [_, _, _] => true,
            _ => false,
        },
        _ => false,
    }
}

/// Goes on with a function: of IF with the condition and then a branch, else with all arguments but
/// the first so many, whose values stand ready.
pub fn take_apart(
    machine: &mut Machine,
    f: Func,
    args: &[TermId],
    ready: usize,
) -> Result<(), NoMemory>
    requires { ready ≤ length args.now }
    ensures { OnOk result (machine.new ≡ record machine.old {
      tasks = taken_apart f args.now
          ready machine.old.tasks;
    }) }
{
    match f {
        Func::BuiltIn(BuiltIn::If) => match args {
            [c, a, b] => begin_branch(machine, *c, *a, *b),
            _ => begin_arguments(machine, f, args, ready),
        },
        _ => begin_arguments(machine, f, args, ready),
    }
}

/// A condition, and then one of two terms.
fn begin_branch(machine: &mut Machine, c: TermId, a: TermId, b: TermId) -> Result<(), NoMemory>
    ensures { OnOk result (machine.new ≡ record machine.old {
      tasks = task.Eval c ∷ task.Branch
          a b ∷ machine.old.tasks;
    }) }
{
    machine.tasks.push(Task::Branch(a, b))?;
    machine.tasks.push(Task::Eval(c))
}

/// The arguments behind the first so many, from the left, and then their function.
fn begin_arguments(
    machine: &mut Machine,
    f: Func,
    args: &[TermId],
    ready: usize,
) -> Result<(), NoMemory>
    requires { ready ≤ length args.now }
    ensures { OnOk result (machine.new ≡ record machine.old {
      tasks = map task.Eval
          (drop ready args.now) ++ task.Combine f (length args.now) ∷ machine.old.tasks;
    }) }
{
    machine.tasks.push(Task::Combine(f, args.len()))?;
    let mut left = args.len();
    while left > ready {
        left -= 1;
        machine.tasks.push(Task::Eval(args[left]))?;
    }
    Ok(())
}
