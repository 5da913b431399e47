// The flow of a unit.
ghost use Rattle.std.specs.Prelude.{◌≤◌, length, IfOk};
ghost use Rattle.flow_tests.specs.Tests.{IsFlowing};
ghost use Rattle.flow_targets.specs.Leading.{IsKnown};
ghost use Rattle.flow_forks.specs.Flows.{IsFlowOf};

use edge_io::NoMemory;
use flow_targets::{Known, target_of};
use flow_tests::{Chains, chains_of};
use fort_model::{Fork, Target};
use fort_syntax::{Dialect, Unit};
use std::alloc::Global;
use unit_points::{Labels, turns_of};

/// The targets of the statements of a unit, in order, and the forks that they lead to. Each fork leads to points and to lesser
/// forks; the tests of DOs with one last statement stand once.
#[derive(Drop)]
pub struct Flow {
    pub starts: Vec<Target>,
    pub forks: Vec<Fork>,
}

/// The targets of all statements, where the tests of DOs stand.
fn starts_of(alloc: Global, known: &Known, mut forks: Vec<Fork>) -> Result<Flow, NoMemory>
    requires known { IsKnown known.now forks.items }
    requires few { length forks.items ≤ length known.now.unit.now.lines }
    ensures { IfOk result (λ f. IsFlowOf known.now.dialect known.now.unit.now f.forks.items f.starts.items) }
{
    let lines = known.unit.lines.as_slice();
    let mut starts = Vec::with_capacity(alloc, lines.len())?;
    for at in 0..lines.len() {
        let Ok(start) = target_of(alloc, known, &mut forks, at, &lines[at]) else {
            return Err(NoMemory);
        };
        let Ok(()) = starts.push(start) else {
            return Err(NoMemory);
        };
    }
    Ok(Flow { starts, forks })
}

/// The flow of a unit in a dialect, or want of memory. The last statements of its DOs stand in it, its logical
/// IFs carry what they may, and it has fewer than 1,073,741,824 statements. It takes time and memory for each
/// statement and each label in one alone.
pub fn flow_of(alloc: Global, dialect: Dialect, unit: &Unit) -> Result<Flow, NoMemory>
    requires { IsFlowing unit.now }
    ensures { IfOk result (λ f. IsFlowOf dialect unit.now f.forks.items f.starts.items) }
{
    let labels = Labels::new(alloc, unit.lines.as_slice())?;
    let turns = turns_of(alloc, unit)?;
    let chains = chains_of(alloc, unit, &labels, &turns)?;
    let Chains {
        forks,
        behind,
        over,
    } = chains;
    let known = Known {
        dialect,
        unit,
        labels,
        turns,
        behind,
        over,
    };
    let Ok(flow) = starts_of(alloc, &known, forks) else {
        return Err(NoMemory);
    };
    Ok(flow)
}
