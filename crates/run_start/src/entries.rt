// What the names of a unit have at the start.
ghost use Rattle.std.specs.Prelude.{◌≡◌, ◌==◌, ◌&&◌, ℕ, cond, [], ◌∷◌, ◌++◌, Some, None, is_some, IfOk, OnOk, option_copied};
ghost use Rattle.std.specs.List.{list_all};
ghost use Rattle.fort_syntax.specs.Names.{dims_of_data};
ghost use Rattle.unit_tables.specs.Tables.{AreNamePlaces, told};
ghost use Rattle.run_start.specs.Counted.{number};
ghost use Rattle.run_start.specs.Places.{ArePlacesOf};
ghost use Rattle.run_start.specs.Shapes.{dim_to, sized_from, shape_to, shapes_from};
ghost use Rattle.run_start.specs.Starts.{names_given, given_to, cells_given, first_num, fits_cells, is_of_sort, are_of_sort};

use crate::counts::{above_zero, times};
use crate::places::WordPlaces;
use edge_io::{List, NoMemory};
use formula::{Cell, Word};
use fort_notes::Given;
use fort_syntax::{DataName, Dim, Name, Sort, Unit};
use std::alloc::Global;
use unit_tables::NamePlaces;

/// A unit with what its names are given, and tables of these.
#[derive(Drop)]
pub(crate) struct Entries<'a> {
    pub unit: &'a Unit,
    pub given: &'a [Given],
    /// The names that are given, and the data names of the unit.
    pub table: &'a WordPlaces,
    pub names: &'a NamePlaces,
    ghost table_is: { ArePlacesOf (names_given given.now) table.now },
    ghost names_are: { AreNamePlaces unit.now names.now },
}

/// The number in the first of some cells.
fn first_num(cells: &[Cell]) -> i128
    ensures { result ≡ first_num cells.now }
{
    if cells.is_empty() {
        return 0;
    }
    match cells[0] {
        Cell::Int(n) => n,
        _ => 0,
    }
}

fn is_of_sort(sort: Sort, cell: &Cell) -> bool
    ensures { result ≡ is_of_sort sort cell.now }
{
    match sort {
        Sort::Integer => !matches!(cell, Cell::Logical(_)),
        Sort::Logical => !matches!(cell, Cell::Int(_)),
    }
}

fn all_of_sort(sort: Sort, cells: &[Cell]) -> bool
    ensures { result ≡ list_all (is_of_sort sort) cells.now }
{
    let mut all = true;
    for cell in cells {
        all = all && is_of_sort(sort, cell);
    }
    all
}

fn are_of_sort(known: Option<&DataName>, cells: &[Cell]) -> bool
    ensures { result ≡ are_of_sort (option_copied known.entry) cells.now }
{
    match known {
        Some(entry) => all_of_sort(entry.sort, cells),
        None => true,
    }
}

fn has_count(size: Option<usize>, count: usize) -> bool
    ensures { (n : ℕ) → size ≡ number n → result ≡ (count == n) }
{
    match size {
        Some(size) => count == size,
        None => false,
    }
}

fn both(a: bool, b: bool) -> bool
    ensures { result ≡ (a && b) }
{
    a && b
}

/// Whether what is given to a name fits it, which has so many cells.
fn fits(known: Option<&DataName>, given: Option<&Given>, size: Option<usize>) -> bool
    ensures { (n : ℕ) → size ≡ number n → result ≡ fits_cells (option_copied known.entry) n
        (option_copied given.entry) }
{
    let Some(entry) = given else {
        return true;
    };
    let cells = entry.cells.as_slice();
    both(has_count(size, cells.len()), are_of_sort(known, cells))
}

/// A size, where it is one.
fn when(is: bool, size: Option<usize>) -> Option<Option<usize>>
    ensures { result ≡ cond is (Some size) None }
{
    if is { Some(size) } else { None }
}

impl<'a> Entries<'a> {
    /// What a name is given.
    pub(crate) fn find(&self, name: &Name) -> Option<&'a Given>
        ensures { option_copied result ≡ given_to self.now.given.now name.now }
    {
        match self.table.place(name) {
            Some(place) => self.given.get(place),
            None => None,
        }
    }

    /// The number that a name is given.
    fn number(&self, name: &Name) -> i128
        ensures { result ≡ first_num (cells_given (given_to self.now.given.now name.now)) }
    {
        match self.find(name) {
            Some(given) => first_num(given.cells.as_slice()),
            None => 0,
        }
    }

    /// A dimension, where it is good.
    fn dim(&self, dim: &Dim) -> Option<Option<usize>>
        ensures { result ≡ dim_to self.now.given.now dim.now }
    {
        match dim {
            Dim::Fixed(n) => Some(Some(*n as usize)),
            Dim::Named(name) => above_zero(self.number(name)),
        }
    }

    /// How many cells dimensions make, where all are good.
    fn size(&self, dims: &[Dim]) -> Option<Option<usize>>
        ensures { result ≡ sized_from self.now.given.now (Some 1) dims.now }
    {
        let mut size = Some(1);
        for dim in dims {
            let Some(count) = self.dim(dim) else {
                return None;
            };
            size = times(size, count);
        }
        Some(size)
    }

    /// How many cells a data name has by its dimensions, where all are good.
    fn data_size(&self, known: Option<&DataName>) -> Option<Option<usize>>
        ensures { result ≡ sized_from self.now.given.now (Some 1) (dims_of_data (option_copied known.entry)) }
    {
        match known {
            Some(entry) => self.size(entry.dims.as_slice()),
            None => Some(Some(1)),
        }
    }

    /// How many cells a name has, where it is in shape.
    fn shape(&self, name: &Name) -> Option<Option<usize>>
        ensures { result ≡ shape_to self.now.unit.now self.now.given.now name.now }
    {
        let known = self.names.data(self.unit, name);
        let Some(size) = self.data_size(known) else {
            return None;
        };
        when(fits(known, self.find(name), size), size)
    }

    /// How many cells each of some names has, where all are in shape.
    pub(crate) fn shapes(
        &self,
        alloc: Global,
        names: &[Name],
    ) -> Result<Option<List<Option<usize>>>, NoMemory>
        ensures { IfOk result (λ o. o ≡ shapes_from self.now.unit.now self.now.given.now [] names.now) }
    {
        let mut sizes = Vec::new(alloc);
        for name in names {
            let Some(size) = self.shape(name) else {
                return Ok(None);
            };
            push(&mut sizes, size)?;
        }
        Ok(Some(List::from_vec(sizes)))
    }
}

fn push(sizes: &mut Vec<Option<usize>>, size: Option<usize>) -> Result<(), NoMemory>
    ensures { OnOk result (sizes.new.items ≡ sizes.old.items ++ size ∷ []) }
{
    match sizes.push(size) {
        Ok(()) => Ok(()),
        Err(_) => Err(NoMemory),
    }
}

/// Whether all words are entities, of which this is the table.
pub(crate) fn all_known(entities: &WordPlaces, words: &[Word]) -> bool
    ensures { result ≡ list_all (λ x. is_some (told entities.now x)) words.now }
{
    let mut all = true;
    for word in words {
        all = all && entities.get(word).is_some();
    }
    all
}
