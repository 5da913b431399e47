// Where a walk is.
ghost use Rattle.std.specs.Prelude.{◌≡◌, ◌<◌, ◌∷◌, Some, drop, length, slice_get, suc, IfSome};
ghost use Rattle.fort_syntax.specs.Names.{function, subroutine};
ghost use Rattle.std.specs.Coded.{codes};
ghost use Rattle.fort_syntax.specs.contracts.expr.Expr as expr;
ghost use Rattle.fort_syntax.specs.contracts.stmt.Stmt as stmt;
ghost use Rattle.unit_tables.specs.UnitTables.{AreUnitNumbers};

use call_sites::Book;
use fort_syntax::Name;
use path_scene::Scene;
use unit_tables::UnitNumbers;

/// A program as its walks see it, the numbers of its units by name, and a unit of it, told by its
/// number, from 0, with tables of its names.
#[derive(Drop)]
pub struct Setting<'a> {
    pub scene: &'a Scene<'a>,
    pub numbers: &'a UnitNumbers,
    pub book: &'a Book<'a>,
    pub number: usize,
    ghost numbers_are: { AreUnitNumbers scene.now.books.now.units.now numbers.now },
    ghost unit_is: { drop number scene.now.books.now.units.now ≡ book.now.unit.now ∷ drop (suc number) scene.now.books.now.units.now } by { Prim.hlevel (codes, expr.the_row.coded, stmt.the_row.coded) },
}

impl<'a> Setting<'a> {
    /// The unit of a number in a program.
    pub fn new(scene: &'a Scene<'a>, numbers: &'a UnitNumbers, number: usize) -> Setting<'a>
        requires within { number < length scene.now.books.now.units.now }
        requires numbers { AreUnitNumbers scene.now.books.now.units.now numbers.now }
        ensures scene { result.scene.now ≡ scene.now }
        ensures unit { slice_get scene.now.books.now.units.now number ≡ Some result.book.now.unit.now }
        ensures number { result.number ≡ number }
    {
        Setting {
            scene,
            numbers,
            book: scene.books.book(number),
            number,
        }
    }

    /// The number of the unit that a reference to a name is of: the first FUNCTION with the name.
    pub fn function(&self, name: &Name) -> Option<usize>
        ensures number { result ≡ function self.now.scene.now.books.now.units.now name.now }
        ensures within { IfSome result (λ i. i < length self.now.scene.now.books.now.units.now) }
    {
        self.numbers.function(self.scene.books.units, name)
    }

    /// The number of the unit that a CALL of a name is of: the first SUBROUTINE with the name.
    pub fn subroutine(&self, name: &Name) -> Option<usize>
        ensures number { result ≡ subroutine self.now.scene.now.books.now.units.now name.now }
        ensures within { IfSome result (λ i. i < length self.now.scene.now.books.now.units.now) }
    {
        self.numbers.subroutine(self.scene.books.units, name)
    }
}
