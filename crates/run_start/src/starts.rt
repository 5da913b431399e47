// What the starts of a deck go by.
ghost use Rattle.std.specs.Prelude.{◌≡◌, Some, IfOk, IfSome};
ghost use Rattle.run_start.specs.Decks.{AreStarts, own_from, dummies_from, longest_size, longest_rank};
ghost use Rattle.run_start.specs.Places.{ArePlacesOf, names_of_units, first_place};

use crate::counts::plus;
use crate::places::WordPlaces;
use crate::words::unit_words;
use edge_io::{Keys, NoMemory};
use fort_syntax::{Name, Unit};
use run_ranks::{Ranks, UnitRank};
use run_shapes::{Code, UnitCode};
use std::alloc::Global;

/// What the starts of a deck go by, made once: its units by name, how many cells their own names
/// have, how many dummies there are, and how long the longest own array is.
#[derive(Drop)]
pub struct Starts {
    pub(crate) keys: Keys,
    pub(crate) places: WordPlaces,
    pub(crate) own: Option<usize>,
    pub(crate) dummies: Option<usize>,
    pub(crate) longest: usize,
}

fn own(ranks: &[UnitRank]) -> Option<usize>
    ensures { result ≡ own_from (Some 0) ranks.now }
{
    let mut sum = Some(0);
    for rank in ranks {
        sum = plus(sum, Some(rank.cells));
    }
    sum
}

fn dummies(codes: &[UnitCode]) -> Option<usize>
    ensures { result ≡ dummies_from (Some 0) codes.now }
{
    let mut sum = Some(0);
    for code in codes {
        sum = plus(sum, Some(code.slots.dummies));
    }
    sum
}

fn longest_size(most: usize, sizes: &[usize]) -> usize
    ensures { result ≡ longest_size most sizes.now }
{
    let mut most = most;
    for size in sizes {
        most = most.max(*size);
    }
    most
}

fn longest(ranks: &[UnitRank]) -> usize
    ensures { result ≡ longest_rank 1 ranks.now }
{
    let mut most: usize = 1;
    for rank in ranks {
        most = longest_size(most, rank.own.as_slice());
    }
    most
}

impl Starts {
    /// What the starts of a deck go by, in time for its units. No answer depends on the keys.
    pub fn new(
        alloc: Global,
        keys: Keys,
        units: &[Unit],
        code: &Code,
        ranks: &Ranks,
    ) -> Result<Starts, NoMemory>
        ensures { IfOk result (AreStarts units.now code.now ranks.now) }
    {
        let words = unit_words(alloc, units)?;
        let Ok((places, _)) = WordPlaces::new(alloc, keys, words.as_slice()) else {
            return Err(NoMemory);
        };
        Ok(Starts {
            keys,
            places,
            own: own(ranks.units.as_slice()),
            dummies: dummies(code.units.as_slice()),
            longest: longest(ranks.units.as_slice()),
        })
    }
}
