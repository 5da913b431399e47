// Ranges, sites and sums at the start.
ghost use Rattle.std.specs.Prelude.{◌≡◌, Some};
ghost use Rattle.std.specs.List.{list_all};
ghost use Rattle.run_start.specs.Decks.{coded_call, coded_site, coded_site_in, all_coded, are_coded_sites};
ghost use Rattle.run_start.specs.Places.{ArePlacesOf, first_place, names_of_units};
ghost use Rattle.run_start.specs.Shapes.{sum_from, greatest_from};
ghost use Rattle.run_start.specs.Starts.{is_in_range};

use crate::counts::{greater, plus};
use crate::places::WordPlaces;
use formula::Cell;
use fort_model::Bounds;
use fort_notes::{Given, Passing, Site};
use fort_syntax::Unit;
use run_shapes::{CallCode, UnitCode};

pub(crate) fn is_in_range(bounds: &Bounds, cell: &Cell) -> bool
    ensures { result ≡ is_in_range bounds.now cell.now }
{
    match cell {
        Cell::Int(n) => i128::from(bounds.least) <= *n && *n <= i128::from(bounds.greatest),
        _ => true,
    }
}

fn are_in_range(bounds: &Bounds, cells: &[Cell]) -> bool
    ensures { result ≡ list_all (is_in_range bounds.now) cells.now }
{
    let mut all = true;
    for cell in cells {
        all = all && is_in_range(bounds, cell);
    }
    all
}

/// Whether all that is given is in range.
pub(crate) fn all_in_range(bounds: &Bounds, given: &[Given]) -> bool
    ensures { result ≡ list_all (λ g. list_all (is_in_range bounds.now) g.cells) given.now }
{
    let mut all = true;
    for entry in given {
        all = all && are_in_range(bounds, entry.cells.as_slice());
    }
    all
}

fn call_at(calls: &[CallCode], number: u64) -> Option<CallCode>
    ensures { result ≡ coded_call calls.now number }
{
    if number == 0 {
        return None;
    }
    calls.get((number - 1) as usize).copied()
}

/// Whether a site is that of an argument of a call in a unit.
fn is_site(code: &UnitCode, site: &Site) -> bool
    ensures { result ≡ coded_site (Some code.now) site.now }
{
    match call_at(code.calls.as_slice(), site.call) {
        Some(call) => 1 <= site.place && site.place <= call.actuals as u64,
        None => false,
    }
}

fn is_site_in(codes: &[UnitCode], unit: Option<usize>, site: &Site) -> bool
    ensures { result ≡ coded_site_in codes.now unit site.now }
{
    match unit {
        Some(i) => match codes.get(i) {
            Some(code) => is_site(code, site),
            None => false,
        },
        None => false,
    }
}

/// What sites stand in: units with their code and their table by name.
#[derive(Drop)]
pub(crate) struct Callers<'a> {
    pub units: &'a [Unit],
    pub codes: &'a [UnitCode],
    pub places: &'a WordPlaces,
    ghost places_are: { ArePlacesOf (names_of_units units.now) places.now },
}

fn is_placed(callers: &Callers<'_>, site: &Site) -> bool
    ensures { result ≡ coded_site_in callers.now.codes.now
        (first_place (names_of_units callers.now.units.now) site.now.unit 0) site.now }
{
    is_site_in(callers.codes, callers.places.place(&site.unit), site)
}

fn all_placed(callers: &Callers<'_>, sites: &[Site]) -> bool
    ensures { result ≡ all_coded callers.now.units.now callers.now.codes.now sites.now }
{
    let mut all = true;
    for site in sites {
        all = all && is_placed(callers, site);
    }
    all
}

/// Whether all sites are those of arguments of calls in units.
pub(crate) fn are_sites(callers: &Callers<'_>, passing: &Passing) -> bool
    ensures { result ≡ are_coded_sites callers.now.units.now callers.now.codes.now passing.now }
{
    match passing {
        Passing::Reference => true,
        Passing::Copy => true,
        Passing::Listed(sites) => all_placed(callers, sites.as_slice()),
    }
}

/// The sum of sizes.
pub(crate) fn sum(sizes: &[Option<usize>]) -> Option<usize>
    ensures { result ≡ sum_from (Some 0) sizes.now }
{
    let mut sum = Some(0);
    for size in sizes {
        sum = plus(sum, *size);
    }
    sum
}

/// The greatest of a size and some.
pub(crate) fn greatest(most: usize, sizes: &[Option<usize>]) -> Option<usize>
    ensures { result ≡ greatest_from (Some most) sizes.now }
{
    let mut most = Some(most);
    for size in sizes {
        most = greater(most, *size);
    }
    most
}
