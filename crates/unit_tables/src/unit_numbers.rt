// The units of a deck by name.
ghost use Rattle.std.specs.Prelude.{◌≡◌, ◌<◌, length, cond, IfOk, IfSome};
ghost use Rattle.fort_syntax.specs.Names.{function, subroutine};
ghost use Rattle.unit_tables.specs.Tables.{AreNumbersOf};
ghost use Rattle.unit_tables.specs.UnitTables.{AreUnitNumbers};

use crate::place_table::PlaceTable;
use edge_io::{Keys, NoMemory};
use fort_syntax::{Name, Unit};
use std::alloc::Global;

/// The FUNCTIONs and the SUBROUTINEs of a deck by name, with their numbers among its units, counted
/// from 0; where a name stands twice in a kind, the first of them counts.
#[derive(Drop)]
pub struct UnitNumbers {
    functions: PlaceTable,
    subroutines: PlaceTable,
}

// The units of one kind by name.
fn numbers_of_kind(
    alloc: Global,
    keys: Keys,
    units: &[Unit],
    of_functions: bool,
) -> Result<PlaceTable, NoMemory>
    ensures { IfOk result (AreNumbersOf of_functions units.now) }
{
    let mut table = PlaceTable::new(alloc, keys);
    let mut left = units.len();
    while left > 0 {
        left -= 1;
        table.put_unit(&units[left], of_functions, left)?;
    }
    Ok(table)
}

impl UnitNumbers {
    /// The table of the units of a deck, in time for them. No answer depends on the keys.
    pub fn new(alloc: Global, keys: Keys, units: &[Unit]) -> Result<UnitNumbers, NoMemory>
        ensures { IfOk result (AreUnitNumbers units.now) }
    {
        let functions = numbers_of_kind(alloc, keys, units, true)?;
        let subroutines = numbers_of_kind(alloc, keys, units, false)?;
        Ok(UnitNumbers {
            functions,
            subroutines,
        })
    }

    /// The number of the first FUNCTION with a name among the units of the table.
    pub fn function(&self, units: &[Unit], name: &Name) -> Option<usize>
        requires { AreUnitNumbers units.now self.now }
        ensures number { result ≡ function units.now name.now }
        ensures within { IfSome result (λ i. i < length units.now) }
    {
        let Some(number) = self.functions.get(name) else {
            return None;
        };
        prove!(number < units.len());
        Some(number)
    }

    /// The number of the first SUBROUTINE with a name among the units of the table.
    pub fn subroutine(&self, units: &[Unit], name: &Name) -> Option<usize>
        requires { AreUnitNumbers units.now self.now }
        ensures number { result ≡ subroutine units.now name.now }
        ensures within { IfSome result (λ i. i < length units.now) }
    {
        let Some(number) = self.subroutines.get(name) else {
            return None;
        };
        prove!(number < units.len());
        Some(number)
    }

    /// The number of the unit that a call is of: of a FUNCTION where it is a reference, and else of
    /// a SUBROUTINE.
    pub fn callee(&self, units: &[Unit], reference: bool, name: &Name) -> Option<usize>
        requires { AreUnitNumbers units.now self.now }
        ensures number { result ≡ cond reference (function units.now name.now)
            (subroutine units.now name.now) }
        ensures within { IfSome result (λ i. i < length units.now) }
    {
        if reference {
            self.function(units, name)
        } else {
            self.subroutine(units, name)
        }
    }
}
