// The order of all statements of a deck.
ghost use Rattle.std.specs.Prelude.{◌≡◌, IfOk};
ghost use Rattle.fort_syntax.specs.Units.{segments};
ghost use Rattle.fort_syntax.specs.OrderRules.{places};
ghost use Rattle.fort_syntax.specs.UnitRules.{order_rules, block_rules, fault_in_stage};
ghost use Rattle.fort_syntax.specs.declared.dialect.Dialect.{Dialect};
ghost use Rattle.order_faults.specs.BlockScans.{block_scans};
ghost use Rattle.order_faults.specs.Scans.{order_scans};

use crate::blocks::scan_blocks;
use crate::order::scan;
use crate::splitting::first_unit;
use edge_io::NoMemory;
use fort_syntax::{Fault, Line};
use std::alloc::Global;

fn scans(lines: &[Line]) -> Option<Fault>
    ensures { result ≡ order_scans (segments lines.now) }
{
    let mut rest = lines;
    while !rest.is_empty() {
        let (unit, behind) = rest.split_at(first_unit(rest));
        if let Some(fault) = scan(unit) {
            return Some(fault);
        }
        rest = behind;
    }
    None
}

/// The first fault of a deck's statements by the rules on their order.
#[tactic(auto, using(crate::proofs::OrderScans::all_scanned))]
pub fn deck_order_fault(lines: &[Line]) -> Option<Fault>
    ensures { (dialect : Dialect) → result ≡ fault_in_stage order_rules
        (places dialect (segments lines.now)) }
{
    scans(lines)
}

fn block_scans(alloc: Global, lines: &[Line]) -> Result<Option<Fault>, NoMemory>
    ensures { IfOk result (λ fault. fault ≡ block_scans (segments lines.now)) }
{
    let mut rest = lines;
    while !rest.is_empty() {
        let (unit, behind) = rest.split_at(first_unit(rest));
        let Ok(found) = scan_blocks(alloc, unit) else {
            return Err(NoMemory);
        };
        if let Some(fault) = found {
            return Ok(Some(fault));
        }
        rest = behind;
    }
    Ok(None)
}

/// The first fault of a deck's statements by the rule on block IFs.
#[tactic(auto, using(crate::proofs::BlockFaults::all_found))]
pub fn deck_block_fault(alloc: Global, lines: &[Line]) -> Result<Option<Fault>, NoMemory>
    ensures { IfOk result (λ fault. (dialect : Dialect) → fault ≡ fault_in_stage block_rules
        (places dialect (segments lines.now))) }
{
    block_scans(alloc, lines)
}
