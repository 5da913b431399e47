// Steps, and the choices under which a statement is performed.
ghost use Rattle.std.specs.Prelude.{◌≡◌, IfOk};
ghost use Rattle.way_laws.specs.PathsOf.{turns};
ghost use Rattle.weight_path.specs.Steps.{begun_at, chosen};

use edge_io::NoMemory;
use path_cut::Step;
use std::alloc::Global;

/// The point of the statement that begins at a step, if one does.
pub fn begun_at(step: &Step) -> Option<usize>
    ensures { result ≡ begun_at step.now }
{
    match step {
        Step::At(point) => Some(*point as usize),
        Step::Choice(..) => None,
    }
}

/// The choice of a step, if it is one.
fn chosen(step: &Step) -> Option<usize>
    ensures { result ≡ chosen step.now }
{
    match step {
        Step::At(_) => None,
        Step::Choice(_, choice) => Some(*choice),
    }
}

/// The choices of some steps up to the next statement.
pub(crate) fn turns(alloc: Global, steps: &[Step]) -> Result<Vec<usize>, NoMemory>
    ensures { IfOk result (λ choices. choices.items ≡ turns steps.now) }
{
    let mut choices = Vec::new(alloc);
    for step in steps {
        let Some(choice) = chosen(step) else {
            return Ok(choices);
        };
        let Ok(()) = choices.push(choice) else {
            return Err(NoMemory);
        };
    }
    Ok(choices)
}
