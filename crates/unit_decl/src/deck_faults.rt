// The first fault of a deck's statements.
ghost use Rattle.std.specs.Prelude.{◌≡◌, IfOk};
ghost use Rattle.fort_syntax.specs.UnitRules.{fault_of};

use decl_faults::deck_name_fault;
use edge_io::{Keys, NoMemory};
use fort_syntax::{Dialect, Fault, Line, Rule};
use order_faults::{deck_block_fault, deck_order_fault};
use std::alloc::Global;
use type_faults::deck_type_fault;
use use_faults::deck_use_fault;

/// The first fault of a deck's statements: that of the first stage that finds one. A deck without a statement has no head.
pub fn first_fault(
    alloc: Global,
    keys: Keys,
    dialect: Dialect,
    lines: &[Line],
) -> Result<Option<Fault>, NoMemory>
    ensures { IfOk result (λ fault. fault ≡ fault_of dialect lines.now) }
{
    if lines.is_empty() {
        return Ok(Some(Fault {
            rule: Rule::NoHead,
            card: 1,
        }));
    }
    if let Some(fault) = deck_order_fault(lines) {
        return Ok(Some(fault));
    }
    let Ok(blocks) = deck_block_fault(alloc, lines) else {
        return Err(NoMemory);
    };
    if let Some(fault) = blocks {
        return Ok(Some(fault));
    }
    let Ok(names) = deck_name_fault(alloc, keys, dialect, lines) else {
        return Err(NoMemory);
    };
    if let Some(fault) = names {
        return Ok(Some(fault));
    }
    let Ok(uses) = deck_use_fault(alloc, keys, dialect, lines) else {
        return Err(NoMemory);
    };
    if let Some(fault) = uses {
        return Ok(Some(fault));
    }
    deck_type_fault(alloc, keys, dialect, lines)
}
