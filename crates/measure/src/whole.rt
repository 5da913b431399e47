// A program that is measured.
ghost use Rattle.std.specs.Prelude.{◌≡◌, length, true};
ghost use Rattle.unit_tables.specs.UnitTables.{AreUnitNumbers};
ghost use Rattle.weight_calls.specs.Inside.{are_inside};

use edge_io::Keys;
use formula::TermPool;
use path_scene::Scene;
use std::alloc::Global;
use unit_tables::UnitNumbers;

/// A program whose units are measured: as walks see it, with the pool of its terms and its units by
/// name.
#[derive(Drop)]
pub(crate) struct Whole<'a> {
    pub(crate) alloc: Global,
    pub(crate) keys: Keys,
    pub(crate) pool: &'a TermPool,
    pub(crate) scene: &'a Scene<'a>,
    pub(crate) numbers: &'a UnitNumbers,
    ghost numbers_are: { AreUnitNumbers scene.now.books.now.units.now numbers.now },
    ghost notes_in: { are_inside (length pool.now) scene.now.notes.now ≡ true },
}
