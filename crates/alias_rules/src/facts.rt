// Facts of calls, from what was found.
ghost use Rattle.std.specs.Prelude.{◌≡◌, Err, IfOk};
ghost use Rattle.fort_syntax.specs.declared.refusal.Fault.{Fault};
ghost use Rattle.fort_syntax.specs.declared.refusal.Refusal.TheVariants.{Broken};

use call_rules::Ordered;
use edge_io::{List, NoMemory};
use fort_model::CallFacts;
use fort_syntax::{Name, Refusal};
use name_tables::NameSet;
use std::alloc::Global;

/// The names of a set as a list, in order.
fn listed(alloc: Global, names: &[Name]) -> Result<List<Name>, NoMemory>
    ensures { IfOk result (λ all. all ≡ names.now) }
{
    let mut all = Vec::with_capacity(alloc, names.len())?;
    for name in names {
        let Ok(()) = all.push(*name) else {
            return Err(NoMemory);
        };
    }
    Ok(List::from_vec(all))
}

/// The rows of a table as lists.
fn table_of(alloc: Global, rows: &[NameSet]) -> Result<List<List<Name>>, NoMemory>
    ensures { IfOk result (λ table. table ≡ rows.now) }
{
    let mut table = Vec::with_capacity(alloc, rows.len())?;
    for row in rows {
        let names = listed(alloc, row.names())?;
        let Ok(()) = table.push(names) else {
            return Err(NoMemory);
        };
    }
    Ok(List::from_vec(table))
}

/// The facts of an order with the numbers of called units, and a table.
pub(crate) fn facts_of(
    alloc: Global,
    ordered: Ordered,
    rows: &[NameSet],
) -> Result<CallFacts, Refusal>
    ensures order { IfOk result (λ facts. facts.order ≡ ordered.order) }
    ensures callees { IfOk result (λ facts. facts.callees ≡ ordered.callees) }
    ensures smashes { IfOk result (λ facts. facts.smashes ≡ rows.now) }
    ensures whole { (f : Fault) → result ≡ Err (Broken f) → ⊥ }
{
    let Ok(smashes) = table_of(alloc, rows) else {
        return Err(Refusal::NoMemory);
    };
    let Ordered { order, callees } = ordered;
    Ok(CallFacts {
        order,
        smashes,
        callees,
    })
}
