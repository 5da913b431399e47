// The choices of a path.
ghost use Rattle.std.specs.Prelude.{◌≡◌, IfOk};
ghost use Rattle.way_laws.specs.PathsOf.{turns};

use edge_io::NoMemory;
use path_cut::Step;
use std::alloc::Global;

/// The choices of some steps up to the next statement.
pub(crate) fn turns(alloc: Global, steps: &[Step]) -> Result<Vec<usize>, NoMemory>
    ensures { IfOk result (λ choices. choices.items ≡ turns steps.now) }
{
    let mut choices = Vec::new(alloc);
    for step in steps {
        let Step::Choice(_, choice) = *step else {
            return Ok(choices);
        };
        let Ok(()) = choices.push(choice) else {
            return Err(NoMemory);
        };
    }
    Ok(choices)
}
