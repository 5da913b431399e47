// The units of a program with what is known of them.
use call_sites::DeckBook;
use fort_notes::UnitSpec;
use fort_syntax::Dialect;
use name_tables::NameSet;

/// A program as its walks see it: the dialect, the bound, the units with tables of their names, the
/// notes of each unit as terms of a pool, and the names that each unit smashes. Units are counted
/// from 0.
pub struct Scene<'a> {
    pub dialect: Dialect,
    pub bound: u64,
    pub books: &'a DeckBook<'a>,
    pub notes: &'a [UnitSpec],
    pub smashes: &'a [NameSet],
}
