// Cells and extents at the start.
ghost use Rattle.std.specs.Prelude.{◌≡◌, ◌≤◌, ◌+◌, [], ◌∷◌, ◌++◌, true, Some, None, length, slice_index_or, unwrap_or, option_copied, IfOk, OnOk};
ghost use Rattle.std.specs.List.{list_all};
ghost use Rattle.formula.specs.Values.{is_between};
ghost use Rattle.formula.specs.declared.value.Cell.TheVariants.{Int};
ghost use Rattle.run_start.specs.Filled.{filled, ends_from, segment_by};
ghost use Rattle.run_start.specs.Places.{ArePlacesOf, extent_in, first_place};
ghost use Rattle.run_start.specs.Starts.{cells_or, is_in_range, is_given_in_range, all_in_range};

use crate::entries::Entries;
use crate::places::WordPlaces;
use edge_io::NoMemory;
use formula::Cell;
use fort_model::Bounds;
use fort_notes::Given;
use fort_syntax::Name;
use run_held::Held;
use run_rooms::Pile;
use run_state::{Extent, Row, no_cells};
use std::alloc::Global;

fn int_held(least: i64, greatest: i64, n: i128) -> Held
    requires { is_between least greatest n ≡ true }
    ensures { result ≡ Int n }
{
    Held::int(n as i64)
}

/// A cell whose number is in range.
fn held(bounds: &Bounds, cell: &Cell) -> Held
    requires { is_in_range bounds.now cell.now ≡ true }
    ensures { result ≡ cell.now }
{
    match cell {
        Cell::Int(n) => int_held(bounds.least, bounds.greatest, *n),
        Cell::Logical(truth) => Held::logical(*truth),
        Cell::Undefined => Held::undefined(),
    }
}

fn push_cells(pile: &mut Pile, bounds: &Bounds, cells: &[Cell])
    requires range { list_all (is_in_range bounds.now) cells.now ≡ true }
    requires room { length pile.old.items + length cells.now ≤ pile.old.room }
    ensures { pile.new ≡ record pile.old { items = pile.old.items ++ cells.now } }
{
    for cell in cells {
        pile.push(held(bounds, cell));
    }
}

/// The cells of a name.
fn fill_one(pile: &mut Pile, bounds: &Bounds, size: Option<usize>, given: Option<&Given>)
    requires range { is_given_in_range bounds.now (option_copied given) ≡ true }
    requires room { length pile.old.items + length (cells_or (unwrap_or size 0)
        (option_copied given)) ≤ pile.old.room }
    ensures { pile.new ≡ record pile.old {
      items = pile.old.items ++ cells_or (unwrap_or size 0)
          (option_copied given.entry);
    } }
{
    match given {
        Some(entry) => push_cells(pile, bounds, entry.cells.as_slice()),
        None => pile.extend(size.unwrap_or(0)),
    }
}

fn size_at(sizes: &[Option<usize>], k: usize) -> Option<usize>
    ensures { result ≡ slice_index_or sizes.now k None }
{
    match sizes.get(k) {
        Some(size) => *size,
        None => None,
    }
}

/// The cells of names that have so many.
pub(crate) fn fill(
    pile: &mut Pile,
    entries: &Entries<'_>,
    bounds: &Bounds,
    names: &[Name],
    sizes: &[Option<usize>],
)
    requires range { all_in_range bounds.now entries.now.given.now ≡ true }
    requires room { length pile.old.items + length (filled entries.now.given.now names.now
        sizes.now) ≤ pile.old.room }
    ensures { pile.new ≡ record pile.old {
      items = pile.old.items ++ filled entries.now.given.now
          names.now sizes.now;
    } }
{
    let mut k = 0;
    while k < names.len() && k < sizes.len() {
        let size = size_at(sizes, k);
        fill_one(pile, bounds, size, entries.find(&names[k]));
        k += 1;
    }
}

fn push(ends: &mut Vec<Extent>, end: Extent) -> Result<(), NoMemory>
    ensures { OnOk result (ends.new.items ≡ ends.old.items ++ end ∷ []) }
{
    match ends.push(end) {
        Ok(()) => Ok(()),
        Err(_) => Err(NoMemory),
    }
}

/// Cells side by side.
pub(crate) fn ends(alloc: Global, sizes: &[Option<usize>]) -> Result<Vec<Extent>, NoMemory>
    ensures { IfOk result (λ ends. ends.items ≡ ends_from 0 sizes.now) }
{
    let mut ends = Vec::new(alloc);
    let mut first: usize = 0;
    for size in sizes {
        let size = size.unwrap_or(0);
        push(&mut ends, Extent { first, size })?;
        first = first.saturating_add(size);
    }
    Ok(ends)
}

fn extent_at(ends: &[Extent], k: usize) -> Extent
    ensures { result ≡ extent_in ends.now (Some k) }
{
    if k < ends.len() { ends[k] } else { no_cells() }
}

/// Where names have their cells.
#[derive(Drop)]
pub(crate) struct Ground<'a> {
    pub names: &'a [Name],
    pub places: &'a WordPlaces,
    pub ends: &'a [Extent],
    ghost places_are: { ArePlacesOf names.now places.now },
}

impl<'a> Ground<'a> {
    /// The cells of a name.
    fn extent(&self, name: &Name) -> Extent
        ensures { result ≡ extent_in self.now.ends.now (first_place self.now.names.now name.now 0) }
    {
        match self.places.place(name) {
            Some(k) => extent_at(self.ends, k),
            None => no_cells(),
        }
    }

    /// The cells of names.
    pub(crate) fn push_segment(&self, row: &mut Row<Extent>, names: &[Name])
        requires { length row.old.items + length names.now ≤ row.old.room }
        ensures { row.new ≡ record row.old {
          items = row.old.items ++ segment_by self.now.names.now
              self.now.ends.now names.now;
        } }
    {
        for name in names {
            row.push(self.extent(name));
        }
    }
}
