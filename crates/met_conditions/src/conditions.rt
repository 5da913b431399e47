// The conditions of checks.
ghost use Rattle.std.specs.Prelude.{◌≡◌, ◌++◌, ◌∷◌, ◌+◌, ◌<◌, ◌^◌, [], IfOk, OnOk};
ghost use Rattle.met_conditions.specs.Numbered.{checks_in, condition_of, conditions_at};

use edge_io::{List, NoMemory};
use formula::TermId;
use fort_syntax::{Condition, Kind, Name};
use std::alloc::Global;
use walk_state::Met;

/// A path: its unit, and its number among the paths of the unit, which counts from 1.
#[derive(Debug, Drop)]
pub struct Along {
    pub unit: Name,
    pub path: u32,
}

/// A check: its number on its path, which counts from 1, its kind and its card.
#[derive(Clone, Copy)]
struct Checked {
    number: u32,
    kind: Kind,
    card: u32,
    goal: TermId,
}

/// The condition of a check, with what was met before it as hypotheses.
fn condition(
    alloc: Global,
    along: &Along,
    hyps: &[TermId],
    check: Checked,
) -> Result<Condition, NoMemory>
    ensures { IfOk result (λ c. c ≡ condition_of along.now.unit along.now.path check.number
        hyps.now check.kind check.card check.goal) }
{
    let Ok(hyps) = Vec::from_slice(alloc, hyps) else {
        return Err(NoMemory);
    };
    Ok(Condition {
        unit: along.unit,
        path: along.path,
        check: check.number,
        kind: check.kind,
        card: check.card,
        hyps: List::from_vec(hyps),
        goal: check.goal,
    })
}

/// Adds the condition of a check, and then its goal to the hypotheses.
fn add_check(
    alloc: Global,
    along: &Along,
    check: Checked,
    hyps: &mut Vec<TermId>,
    conditions: &mut Vec<Condition>,
) -> Result<(), NoMemory>
    ensures conditions { OnOk result (conditions.new.items ≡ conditions.old.items ++ condition_of
        along.now.unit along.now.path check.number hyps.old.items check.kind check.card
        check.goal ∷ []) }
    ensures hyps { OnOk result (hyps.new.items ≡ hyps.old.items ++ check.goal ∷ []) }
{
    let Ok(condition) = condition(alloc, along, hyps, check) else {
        return Err(NoMemory);
    };
    let Ok(()) = conditions.push(condition) else {
        return Err(NoMemory);
    };
    let Ok(()) = hyps.push(check.goal) else {
        return Err(NoMemory);
    };
    Ok(())
}

/// Adds the conditions of what a walk along a path met: one for each check, whose hypotheses are all
/// terms met before it. The checks are fewer than 2^32.
pub fn add_conditions(
    alloc: Global,
    along: &Along,
    met: &[Met],
    conditions: &mut Vec<Condition>,
) -> Result<(), NoMemory>
    requires few { checks_in met.now < 4294967296 }
    ensures { OnOk result (conditions.new.items ≡ conditions.old.items ++ conditions_at
        along.now.unit along.now.path 0 [] met.now) }
{
    let mut checks: u32 = 0;
    let mut hyps = Vec::new(alloc);
    for event in met {
        match *event {
            Met::Check(kind, card, goal) => {
                checks += 1;
                let check = Checked {
                    number: checks,
                    kind,
                    card,
                    goal,
                };
                let Ok(()) = add_check(alloc, along, check, &mut hyps, conditions) else {
                    return Err(NoMemory);
                };
            }
            Met::Take(fact) => {
                let Ok(()) = hyps.push(fact) else {
                    return Err(NoMemory);
                };
            }
        }
    }
    Ok(())
}
