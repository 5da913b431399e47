// The first fault of units by the rules on calls.
ghost use Rattle.std.specs.Prelude.{◌≡◌, IfOk};
ghost use Rattle.call_rules.specs.CallFaults.{call_fault};
ghost use Rattle.call_rules.specs.Scanned.{scan, unit_scan};

use crate::heads::{blocks_of_units, head_rule};
use crate::statements::lines_fault;
use call_sites::{Book, DeckBook};
use edge_io::{Keys, NoMemory};
use fort_syntax::Fault;
use name_tables::NameSet;
use std::alloc::Global;

/// The first fault of a unit, behind units with these names.
fn unit_fault(
    alloc: Global,
    deck: &DeckBook,
    taken: &Taken,
    number: usize,
    book: &Book,
) -> Result<Option<Fault>, NoMemory>
    ensures { IfOk result (λ fault. fault ≡ unit_scan deck.now.units.now taken.now.earlier
        taken.now.blocks taken.now.recursive number book.now.unit.now) }
{
    let unit = book.unit;
    if let Some(rule) = head_rule(
        &taken.earlier,
        &taken.blocks,
        &taken.recursive,
        number,
        &unit.name,
    ) {
        return Ok(Some(Fault {
            rule,
            card: unit.head,
        }));
    }
    lines_fault(alloc, taken.keys, deck, book, unit.lines.as_slice())
}

/// The names that the next unit may not have, the first unit that calls itself, and the keys of tables.
#[derive(Drop)]
struct Taken {
    keys: Keys,
    earlier: NameSet,
    blocks: NameSet,
    recursive: Option<usize>,
}

fn scanned(alloc: Global, deck: &DeckBook, taken: &mut Taken) -> Result<Option<Fault>, NoMemory>
    ensures { IfOk result (λ fault. fault ≡ scan deck.now.units.now taken.old.blocks
        taken.old.recursive taken.old.earlier 0 deck.now.units.now) }
{
    for i in 0..deck.units.len() {
        let book = deck.book(i);
        let Ok(fault) = unit_fault(alloc, deck, taken, i, book) else {
            return Err(NoMemory);
        };
        if let Some(fault) = fault {
            return Ok(Some(fault));
        }
        let Ok(_) = taken.earlier.add(book.unit.name) else {
            return Err(NoMemory);
        };
    }
    Ok(None)
}

/// The first fault of units by the rules on calls, where the first unit that calls itself is known.
#[tactic(auto, using(crate::proofs::ScannedUnits::scan_is))]
pub(crate) fn call_fault(
    alloc: Global,
    keys: Keys,
    deck: &DeckBook,
    recursive: Option<usize>,
) -> Result<Option<Fault>, NoMemory>
    ensures { IfOk result (λ fault. fault ≡ call_fault deck.now.units.now recursive) }
{
    let Ok(blocks) = blocks_of_units(alloc, keys, deck.units) else {
        return Err(NoMemory);
    };
    let mut taken = Taken {
        keys,
        earlier: NameSet::new(alloc, keys),
        blocks,
        recursive,
    };
    scanned(alloc, deck, &mut taken)
}
