// The types in a deck.
ghost use Rattle.std.specs.Prelude.{◌≡◌, IfOk};
ghost use Rattle.fort_syntax.specs.Units.{scope_of, segments};
ghost use Rattle.fort_syntax.specs.OrderRules.{places};
ghost use Rattle.fort_syntax.specs.UnitRules.{type_rules, fault_in_stage};
ghost use Rattle.type_faults.specs.Parts.{type_scan, type_scans};

use crate::fitting::scan_types;
use edge_io::{Keys, NoMemory};
use fort_syntax::{Dialect, Fault, Line};
use order_faults::first_unit;
use std::alloc::Global;
use unit_scope::scope_of;

fn judged(alloc: Global, keys: Keys, unit: &[Line]) -> Result<Option<Fault>, NoMemory>
    ensures { IfOk result (λ fault. fault ≡ type_scan (scope_of unit.now) unit.now) }
{
    let Ok(scope) = scope_of(alloc, keys, unit) else {
        return Err(NoMemory);
    };
    Ok(scan_types(&scope, unit))
}

fn scans(alloc: Global, keys: Keys, lines: &[Line]) -> Result<Option<Fault>, NoMemory>
    ensures { IfOk result (λ fault. fault ≡ type_scans (segments lines.now)) }
{
    let mut rest = lines;
    while !rest.is_empty() {
        let (unit, behind) = rest.split_at(first_unit(rest));
        let Ok(found) = judged(alloc, keys, unit) else {
            return Err(NoMemory);
        };
        if let Some(fault) = found {
            return Ok(Some(fault));
        }
        rest = behind;
    }
    Ok(None)
}

/// The first fault of a deck's statements by the rule on types.
#[tactic(auto, using(crate::proofs::Fittings::types_found))]
pub fn deck_type_fault(
    alloc: Global,
    keys: Keys,
    dialect: Dialect,
    lines: &[Line],
) -> Result<Option<Fault>, NoMemory>
    ensures { IfOk result (λ fault. fault ≡ fault_in_stage type_rules (places dialect (segments lines.now))) }
{
    scans(alloc, keys, lines)
}
