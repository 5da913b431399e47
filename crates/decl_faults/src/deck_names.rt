// The declarations of a deck.
ghost use Rattle.std.specs.Prelude.{◌≡◌, [], IfOk, OnOk};
ghost use Rattle.fort_syntax.specs.Units.{segments};
ghost use Rattle.fort_syntax.specs.NameRules.{members};
ghost use Rattle.fort_syntax.specs.OrderRules.{places};
ghost use Rattle.fort_syntax.specs.UnitRules.{name_rules, fault_in_stage};
ghost use Rattle.decl_faults.specs.NameScans.{nothing_done, name_scan};
ghost use Rattle.decl_faults.specs.Commons.{remembered_from, facts_with, name_scans};

use crate::common_rules::{known_of, remember_unit};
use crate::name_rules::scan_names;
use edge_io::{Keys, List, NoMemory};
use fort_syntax::{Dialect, Fault, Line};
use name_tables::Table;
use order_faults::first_unit;
use std::alloc::Global;
use stmt_names::own_name;
use unit_scope::Kept;

/// The first fault of a unit, whose blocks are kept.
fn judged(
    alloc: Global,
    keys: Keys,
    dialect: Dialect,
    earlier: &mut Table<List<Kept>>,
    unit: &[Line],
) -> Result<Option<Fault>, NoMemory>
    ensures fault { IfOk result (λ fault. fault ≡ name_scan dialect
        (facts_with earlier.old unit.now) nothing_done [] unit.now) }
    ensures earlier { OnOk result (earlier.new ≡ remembered_from (members unit.now) earlier.old unit.now) }
{
    let Ok(known) = known_of(alloc, keys, earlier, unit) else {
        return Err(NoMemory);
    };
    let Ok(fault) = scan_names(alloc, keys, dialect, &known, unit, own_name(unit)) else {
        return Err(NoMemory);
    };
    let Ok(()) = remember_unit(alloc, earlier, &known, unit) else {
        return Err(NoMemory);
    };
    Ok(fault)
}

fn scans(
    alloc: Global,
    keys: Keys,
    dialect: Dialect,
    lines: &[Line],
) -> Result<Option<Fault>, NoMemory>
    ensures { IfOk result (λ fault. fault ≡ name_scans dialect [] (segments lines.now)) }
{
    let mut earlier = Table::new(alloc, keys);
    let mut rest = lines;
    while !rest.is_empty() {
        let (unit, behind) = rest.split_at(first_unit(rest));
        let Ok(found) = judged(alloc, keys, dialect, &mut earlier, unit) else {
            return Err(NoMemory);
        };
        if let Some(fault) = found {
            return Ok(Some(fault));
        }
        rest = behind;
    }
    Ok(None)
}

/// The first fault of a deck's statements by the rules on declarations.
#[tactic(auto, using(crate::proofs::NameUnits::names_found))]
pub fn deck_name_fault(
    alloc: Global,
    keys: Keys,
    dialect: Dialect,
    lines: &[Line],
) -> Result<Option<Fault>, NoMemory>
    ensures { IfOk result (λ fault. fault ≡ fault_in_stage name_rules (places dialect (segments lines.now))) }
{
    scans(alloc, keys, dialect, lines)
}
