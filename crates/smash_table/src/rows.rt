// Rows of the table of smashed names.
ghost use Rattle.std.specs.Prelude.{◌≡◌, ◌<◌, [], map, length, replicate, slice_get, IfOk};
ghost use Rattle.std.specs.List.{filter};
ghost use Rattle.formula.specs.Atoms.{is_among};
ghost use Rattle.fort_syntax.specs.WellFormed.{AreWellFormedUnits};
ghost use Rattle.fort_syntax.specs.declared.dialect.Dialect.{Dialect};
ghost use Rattle.name_tables.specs.Sets.{with_names};
ghost use Rattle.smash_laws.specs.Ordered.{with_table, row_if_any};

use crate::calls::add_where;
use crate::sites::smashed_by;
use call_sites::DeckBook;
use edge_io::{Keys, NoMemory};
use fort_syntax::DataName;
use name_tables::NameSet;
use std::alloc::Global;

/// Those of some data names that are smashed.
fn kept(
    alloc: Global,
    keys: Keys,
    names: &[DataName],
    smashed: &NameSet,
) -> Result<NameSet, NoMemory>
    ensures { IfOk result (λ row. row ≡ with_names [] (filter (λ x. is_among x smashed.now)
        (map (λ d. d.name) names.now))) }
{
    let mut row = NameSet::new(alloc, keys);
    for data in names {
        add_where(&mut row, smashed.has(&data.name), &data.name)?;
    }
    Ok(row)
}

/// The data names that the unit of a number smashes, in order, where the rows of the units that it calls are told already.
pub(crate) fn row_of(
    alloc: Global,
    keys: Keys,
    deck: &DeckBook,
    rows: &[NameSet],
    number: usize,
) -> Result<NameSet, NoMemory>
    requires long { length rows.now ≡ length deck.now.units.now }
    requires unit { number < length deck.now.units.now }
    requires well { (d : Dialect) × AreWellFormedUnits d deck.now.units.now }
    ensures { IfOk result (λ row. row ≡ row_if_any (with_table deck.now.units.now rows.now)
        (slice_get deck.now.units.now number)) }
{
    let book = deck.book(number);
    let smashed = smashed_by(alloc, keys, deck, rows, book)?;
    let row = kept(alloc, keys, book.unit.names.as_slice(), &smashed)?;
    Ok(row)
}

/// Rows of nothing.
pub(crate) fn no_rows(alloc: Global, keys: Keys, count: usize) -> Result<Vec<NameSet>, NoMemory>
    ensures { IfOk result (λ rows. rows.items ≡ replicate count []) }
{
    let mut rows = Vec::with_capacity(alloc, count)?;
    for _ in 0..count {
        let Ok(()) = rows.push(NameSet::new(alloc, keys)) else {
            return Err(NoMemory);
        };
    }
    Ok(rows)
}
