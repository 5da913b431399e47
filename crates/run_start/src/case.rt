// A start of a unit.
ghost use Rattle.std.specs.Prelude.{◌≡◌};
ghost use Rattle.run_start.specs.Places.{ArePlacesOf};
ghost use Rattle.run_start.specs.Starts.{entities};

use crate::entries::Entries;
use crate::places::WordPlaces;
use fort_syntax::Name;

/// A start of the unit of a number, with its start entities.
#[derive(Drop)]
pub(crate) struct Case<'a> {
    pub unit: usize,
    pub entries: &'a Entries<'a>,
    pub names: &'a [Name],
    pub places: &'a WordPlaces,
    ghost names_are: { names.now ≡ entities entries.now.unit.now },
    ghost places_are: { ArePlacesOf names.now places.now },
}
