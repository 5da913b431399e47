// The uses of names and labels in a deck.
ghost use Rattle.std.specs.Prelude.{◌≡◌, true, IfOk};
ghost use Rattle.fort_syntax.specs.Units.{segments};
ghost use Rattle.fort_syntax.specs.OrderRules.{places};
ghost use Rattle.fort_syntax.specs.UnitRules.{use_rules, fault_in_stage};
ghost use Rattle.use_faults.specs.UseScans.{use_facts_of, nothing_used, use_scan, use_scans};

use crate::roles::roles_of;
use crate::use_rules::scan_uses;
use edge_io::{Keys, NoMemory};
use fort_syntax::{Dialect, Fault, Line};
use order_faults::first_unit;
use std::alloc::Global;
use stmt_names::own_name;

fn judged(
    alloc: Global,
    keys: Keys,
    dialect: Dialect,
    unit: &[Line],
) -> Result<Option<Fault>, NoMemory>
    ensures { IfOk result (λ fault. fault ≡ use_scan dialect (use_facts_of unit.now) true
        nothing_used unit.now) }
{
    let Ok(roles) = roles_of(alloc, keys, unit) else {
        return Err(NoMemory);
    };
    let Ok(fault) = scan_uses(alloc, keys, dialect, &roles, own_name(unit), unit) else {
        return Err(NoMemory);
    };
    Ok(fault)
}

fn scans(
    alloc: Global,
    keys: Keys,
    dialect: Dialect,
    lines: &[Line],
) -> Result<Option<Fault>, NoMemory>
    ensures { IfOk result (λ fault. fault ≡ use_scans dialect (segments lines.now)) }
{
    let mut rest = lines;
    while !rest.is_empty() {
        let (unit, behind) = rest.split_at(first_unit(rest));
        let Ok(found) = judged(alloc, keys, dialect, unit) else {
            return Err(NoMemory);
        };
        if let Some(fault) = found {
            return Ok(Some(fault));
        }
        rest = behind;
    }
    Ok(None)
}

/// The first fault of a deck's statements by the rules on uses.
#[tactic(auto, using(crate::proofs::UseScanned::uses_found))]
pub fn deck_use_fault(
    alloc: Global,
    keys: Keys,
    dialect: Dialect,
    lines: &[Line],
) -> Result<Option<Fault>, NoMemory>
    ensures { IfOk result (λ fault. fault ≡ fault_in_stage use_rules (places dialect (segments lines.now))) }
{
    scans(alloc, keys, dialect, lines)
}
