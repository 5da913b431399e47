// What names weigh in a called unit.
ghost use Rattle.std.specs.Prelude.{◌≡◌, ℕ, map, IfOk, OnOk};
ghost use Rattle.fort_model.specs.WalkCalls.{Sight, seen_by, stands_after, with_actuals};
ghost use Rattle.weight_terms.specs.Held.{held};
ghost use Rattle.weight_calls.specs.Operands.{operand_of};
ghost use Rattle.weight_calls.specs.Seen.{by_names, changed_by, data_weight};
ghost use Rattle.weight_calls.specs.Subjects.{sight_of};

use crate::operands::Operand;
use crate::subject::Subject;
use edge_io::NoMemory;
use fort_syntax::{DataName, Name, Role, Unit};
use name_tables::NameSet;
use std::alloc::Global;
use weight_terms::NameWeights;

/// What the names of a caller weigh, of which some were smashed: these weigh 1.
#[derive(Clone, Copy)]
pub(crate) struct Caller<'a> {
    pub(crate) names: &'a NameWeights,
    pub(crate) smashed: &'a NameSet,
}

impl<'a> Caller<'a> {
    /// What a name weighs.
    fn weight(&self, name: &Name) -> u32
        ensures { result ≡ changed_by self.now.smashed.now (held self.now.names.now) name.now }
    {
        if self.smashed.has(name) {
            return 1;
        }
        self.names.of(name)
    }

    /// What an operand weighs.
    fn operand_weight(&self, operand: &Operand) -> u32
        ensures { (w : Sight ℕ) → result ≡ stands_after w (changed_by self.now.smashed.now
            (held self.now.names.now)) (operand_of operand.now) }
    {
        match operand {
            Operand::Bare(name, _) => self.weight(name),
            Operand::Part(weight) => *weight,
            Operand::Computed(weight) => *weight,
        }
    }
}

/// What operands weigh behind a call.
pub(crate) fn weights_behind(
    alloc: Global,
    caller: &Caller,
    operands: &[Operand],
) -> Result<Vec<u32>, NoMemory>
    ensures { IfOk result (λ ns. (w : Sight ℕ)
        → ns.items ≡ map (stands_after w (changed_by caller.now.smashed.now
        (held caller.now.names.now))) (map operand_of operands.now)) }
{
    let mut weights = Vec::new(alloc);
    for operand in operands {
        let Ok(()) = weights.push(caller.operand_weight(operand)) else {
            return Err(NoMemory);
        };
    }
    Ok(weights)
}

/// What a data name of a called unit weighs: a COMMON entity what it does for the caller, and any
/// other 1.
fn data_weight(caller: &Caller, named: &DataName) -> u32
    ensures { result ≡ data_weight (changed_by caller.now.smashed.now (held caller.now.names.now)) named.now }
{
    match named.role {
        Role::InCommon => caller.weight(&named.name),
        _ => 1,
    }
}

/// What the data names of a called unit weigh.
fn set_names(table: &mut NameWeights, caller: &Caller, names: &[DataName]) -> Result<(), NoMemory>
    ensures { OnOk result (held table.new ≡ by_names (changed_by caller.now.smashed.now
        (held caller.now.names.now)) names.now (held table.old)) }
{
    let mut left = names.len();
    while left > 0 {
        left -= 1;
        let named = &names[left];
        let Ok(()) = table.set(&named.name, data_weight(caller, named)) else {
            return Err(NoMemory);
        };
    }
    Ok(())
}

/// Dummies weigh what their actuals do.
fn set_actuals(table: &mut NameWeights, dummies: &[Name], weights: &[u32]) -> Result<(), NoMemory>
    ensures { OnOk result ((w : Sight ℕ) → held table.new ≡ with_actuals w dummies.now weights.now
        (held table.old)) }
{
    let mut left = dummies.len().min(weights.len());
    while left > 0 {
        left -= 1;
        let Ok(()) = table.set(&dummies[left], weights[left]) else {
            return Err(NoMemory);
        };
    }
    Ok(())
}

/// What the names of a called unit weigh by the weights of its actuals.
pub(crate) fn seen(
    subject: &Subject,
    unit: &Unit,
    caller: &Caller,
    weights: &[u32],
) -> Result<NameWeights, NoMemory>
    ensures { IfOk result (λ t. held t ≡ seen_by (sight_of subject.now) unit.now weights.now
        (changed_by caller.now.smashed.now (held caller.now.names.now)) 1) }
{
    let mut table = NameWeights::new(subject.alloc, subject.keys);
    let Ok(()) = set_names(&mut table, caller, unit.names.as_slice()) else {
        return Err(NoMemory);
    };
    let Ok(()) = table.set(&unit.name, 1) else {
        return Err(NoMemory);
    };
    let Ok(()) = set_actuals(&mut table, unit.dummies.as_slice(), weights) else {
        return Err(NoMemory);
    };
    Ok(table)
}
