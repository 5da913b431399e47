// What names stand for where a unit is made into code.
ghost use Rattle.std.specs.Prelude.{◌≡◌, []};
ghost use Rattle.fort_syntax.specs.Names.{function, subroutine};
ghost use Rattle.name_tables.specs.Tables.{all_told};
ghost use Rattle.unit_tables.specs.UnitTables.{AreUnitNumbers};
ghost use Rattle.run_slots.specs.Slotted.{slotted};
ghost use Rattle.run_coding.specs.Pushed.{slot_in};

use call_sites::Book;
use fort_syntax::{Name, Unit};
use run_slots::SlotTable;
use unit_tables::UnitNumbers;

/// A unit of a deck with its tables, and the slots of its names.
pub struct Scope<'a> {
    pub book: &'a Book<'a>,
    pub units: &'a [Unit],
    pub numbers: &'a UnitNumbers,
    pub names: &'a [Name],
    pub table: &'a SlotTable,
    ghost numbers_are: { AreUnitNumbers units.now numbers.now },
    ghost table_is: { table.now ≡ all_told [] (slotted names.now 0) },
}

impl<'a> Scope<'a> {
    /// The slot of a name; 0 where it has none.
    pub fn slot(&self, name: &Name) -> usize
        ensures { result ≡ slot_in self.now.names.now name.now }
    {
        match self.table.find(name) {
            Some(slot) => slot,
            None => 0,
        }
    }

    /// The number of the FUNCTION with a name.
    pub fn function(&self, name: &Name) -> Option<usize>
        ensures { result ≡ function self.now.units.now name.now }
    {
        self.numbers.function(self.units, name)
    }

    /// The number of the SUBROUTINE with a name.
    pub fn subroutine(&self, name: &Name) -> Option<usize>
        ensures { result ≡ subroutine self.now.units.now name.now }
    {
        self.numbers.subroutine(self.units, name)
    }
}
