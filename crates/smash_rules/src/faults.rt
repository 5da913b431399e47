// The first fault of a deck in what its calls smash.
ghost use Rattle.std.specs.Prelude.{◌≡◌, ◌<◌, IsTrue, length, slice_get, IfOk};
ghost use Rattle.fort_syntax.specs.DeckOrder.{units_ascend_above};
ghost use Rattle.fort_syntax.specs.FirstFaults.{TellsLeast};
ghost use Rattle.fort_syntax.specs.WellFormed.{AreWellFormedUnits};
ghost use Rattle.fort_syntax.specs.declared.dialect.Dialect.{Dialect};
ghost use Rattle.fort_model.specs.Program.{Program};
ghost use Rattle.fort_model.specs.Stages.{IsBrokenOf, rules_of_smashing};
ghost use Rattle.smash_laws.specs.Ordered.{with_table};
ghost use Rattle.smash_rules.specs.Judged.{fault_if_any, first_smash_fault};

use crate::statements::fault_at_lines;
use call_sites::DeckBook;
use edge_io::{Keys, NoMemory};
use fort_syntax::Fault;
use name_tables::NameSet;
use smash_heads::head_rule;
use std::alloc::Global;

/// The first fault of the unit of a number.
fn fault_in_unit(
    alloc: Global,
    keys: Keys,
    deck: &DeckBook,
    rows: &[NameSet],
    number: usize,
) -> Result<Option<Fault>, NoMemory>
    requires long { length rows.now ≡ length deck.now.units.now }
    requires unit { number < length deck.now.units.now }
    requires well { (d : Dialect) × AreWellFormedUnits d deck.now.units.now }
    ensures { IfOk result (λ fault. fault ≡ fault_if_any (with_table deck.now.units.now rows.now)
        number (slice_get deck.now.units.now number)) }
{
    let book = deck.book(number);
    let head = head_rule(alloc, keys, book.unit, &rows[number])?;
    match head {
        Some(rule) => Ok(Some(Fault {
            rule,
            card: book.unit.head,
        })),
        None => {
            let fault = fault_at_lines(alloc, keys, deck, rows, book)?;
            Ok(fault)
        }
    }
}

/// The first fault of some units, unit by unit.
fn first_fault(
    alloc: Global,
    keys: Keys,
    deck: &DeckBook,
    rows: &[NameSet],
) -> Result<Option<Fault>, NoMemory>
    requires long { length rows.now ≡ length deck.now.units.now }
    requires well { (d : Dialect) × AreWellFormedUnits d deck.now.units.now }
    ensures { IfOk result (λ fault. fault ≡ first_smash_fault (with_table deck.now.units.now rows.now)) }
{
    for number in 0..deck.units.len() {
        let fault = fault_in_unit(alloc, keys, deck, rows, number)?;
        match fault {
            Some(found) => return Ok(Some(found)),
            None => {}
        }
    }
    Ok(None)
}

/// The first fault of a deck of the rules 41, 42, 43, 45 and 49, on the least card and there of the least number, and None where
/// it keeps them all: for each program of these units with this table, whatever its notes, bound and dialect. The row of each
/// unit has the names that it smashes. 45 and 49 are told at the card of the head, 41 to 43 at that of the statement. No answer
/// depends on the keys.
pub fn smash_fault(
    alloc: Global,
    keys: Keys,
    deck: &DeckBook,
    rows: &[NameSet],
) -> Result<Option<Fault>, NoMemory>
    requires long { length rows.now ≡ length deck.now.units.now }
    requires well { (d : Dialect) × AreWellFormedUnits d deck.now.units.now }
    requires ascend { IsTrue (units_ascend_above 0 deck.now.units.now) }
    ensures { IfOk result (λ fault. (p : Program) → p.units ≡ deck.now.units.now
        → p.smashes ≡ rows.now → TellsLeast (IsBrokenOf p rules_of_smashing) fault) }
{
    let fault = first_fault(alloc, keys, deck, rows)?;
    Ok(fault)
}
