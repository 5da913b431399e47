// The units of a deck with tables of their names.
ghost use Rattle.std.specs.Prelude.{◌≡◌, ◌<◌, Some, length, map, slice_get, IfOk, IfSome};
ghost use Rattle.fort_model.specs.Calls.{callee_of};
ghost use Rattle.unit_tables.specs.UnitTables.{AreUnitNumbers};

use crate::book::Book;
use crate::site::Site;
use edge_io::{Keys, NoMemory};
use fort_syntax::Unit;
use std::alloc::Global;
use unit_tables::UnitNumbers;

/// Units, and tables by which they and their names are found.
#[derive(Drop)]
pub struct DeckBook<'a> {
    pub units: &'a [Unit],
    books: Vec<Book<'a>>,
    numbers: UnitNumbers,
    ghost books_are: { map (λ book. book.unit.now) books.items ≡ units.now },
    ghost numbers_are: { AreUnitNumbers units.now numbers },
}

/// The tables of units.
fn books_of<'a>(alloc: Global, keys: Keys, units: &'a [Unit]) -> Result<Vec<Book<'a>>, NoMemory>
    ensures { IfOk result (λ books. map (λ book. book.unit.now) books.items ≡ units.now) }
{
    let mut books = Vec::new(alloc);
    for unit in units {
        let Ok(book) = Book::new(alloc, keys, unit) else {
            return Err(NoMemory);
        };
        if books.push(book).is_err() {
            return Err(NoMemory);
        }
    }
    Ok(books)
}

impl<'a> DeckBook<'a> {
    /// The tables of units. No answer depends on the keys.
    pub fn new(alloc: Global, keys: Keys, units: &'a [Unit]) -> Result<DeckBook<'a>, NoMemory>
        ensures { IfOk result (λ deck. deck.units.now ≡ units.now) }
    {
        let Ok(books) = books_of(alloc, keys, units) else {
            return Err(NoMemory);
        };
        let Ok(numbers) = UnitNumbers::new(alloc, keys, units) else {
            return Err(NoMemory);
        };
        Ok(DeckBook {
            units,
            books,
            numbers,
        })
    }

    /// The unit of a number, from 0, with its tables.
    pub fn book(&self, number: usize) -> &Book<'a>
        requires { number < length self.now.units.now }
        ensures { slice_get self.now.units.now number ≡ Some result.now.unit.now }
    {
        &self.books[number]
    }

    /// The number of the unit that a call is of.
    pub fn callee(&self, site: &Site) -> Option<usize>
        ensures value { result ≡ callee_of self.now.units.now site.now }
        ensures within { IfSome result (λ number. number < length self.now.units.now) }
    {
        self.numbers
            .callee(self.units, site.is_reference(), &site.callee())
    }
}
