// The unit whose paths are weighed.
ghost use Rattle.std.specs.Prelude.{◌≡◌, length, true};
ghost use Rattle.unit_tables.specs.UnitTables.{AreUnitNumbers};
ghost use Rattle.weight_calls.specs.Inside.{are_inside};

use call_sites::Book;
use edge_io::Keys;
use formula::TermPool;
use path_scene::Scene;
use std::alloc::Global;
use unit_tables::UnitNumbers;

/// A unit of a program, whose paths are weighed: the program as walks see it, with the pool of its
/// terms and its units by name; the number of the unit, and its tables. No answer depends on the
/// keys.
pub struct Subject<'a> {
    pub alloc: Global,
    pub keys: Keys,
    pub pool: &'a TermPool,
    pub scene: &'a Scene<'a>,
    pub numbers: &'a UnitNumbers,
    pub number: usize,
    pub book: &'a Book<'a>,
    ghost numbers_are: { AreUnitNumbers scene.now.books.now.units.now numbers.now },
    ghost notes_in: { are_inside (length pool.now) scene.now.notes.now ≡ true },
}
