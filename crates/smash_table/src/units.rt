// The table of smashed names, unit after unit.
ghost use Rattle.std.specs.Prelude.{◌≡◌, ◌<◌, length, All, IfOk};
ghost use Rattle.fort_syntax.specs.WellFormed.{AreWellFormedUnits};
ghost use Rattle.fort_syntax.specs.declared.dialect.Dialect.{Dialect};
ghost use Rattle.smash_laws.specs.Ordered.{smash_table};

use crate::rows::{no_rows, row_of};
use call_sites::DeckBook;
use edge_io::{Keys, NoMemory};
use name_tables::NameSet;
use std::alloc::Global;

/// For each unit of a deck the data names that it smashes, in their order: what a statement of it sets; the bare names that it
/// passes to smashed dummies; and the COMMON entities of it and of a unit that it calls which smashes them. `order` has the
/// numbers of units, counted from 0, each behind those that it calls. Units that are not in it have an empty row. No answer
/// depends on the keys.
pub fn smash_table(
    alloc: Global,
    keys: Keys,
    deck: &DeckBook,
    order: &[u32],
) -> Result<Vec<NameSet>, NoMemory>
    requires within { All (λ i. i < length deck.now.units.now) order.now }
    requires well { (d : Dialect) × AreWellFormedUnits d deck.now.units.now }
    ensures { IfOk result (λ rows. rows.items ≡ smash_table deck.now.units.now order.now) }
{
    let mut rows = no_rows(alloc, keys, deck.units.len())?;
    for number in order {
        let row = row_of(alloc, keys, deck, rows.as_slice(), *number as usize)?;
        rows[*number as usize] = row;
    }
    Ok(rows)
}
