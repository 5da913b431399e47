// The places of the data names of a unit.
ghost use Rattle.std.specs.Prelude.{◌≡◌, ◌<◌, length, option_copied, IfOk, IfSome};
ghost use Rattle.fort_syntax.specs.Names.{data_name};
ghost use Rattle.unit_tables.specs.Tables.{name_place, data_at, AreNamePlaces};

use crate::place_table::PlaceTable;
use edge_io::{Keys, NoMemory};
use fort_syntax::{DataName, Name, Unit};
use std::alloc::Global;
use std::marker::Model;

/// The data names of a unit by name. Contracts see the list of the names with their places among
/// the data names of the unit, counted from 0; where a name stands twice, the first of them counts.
#[derive(Drop)]
pub struct NamePlaces {
    table: PlaceTable,
}

impl Model for NamePlaces {
    ghost use Rattle.std.specs.Prelude.{List, ℕ};

    ghost Value = { List (List ℕ × ℕ) };

    ghost view = { λ t. t.table };
}

impl NamePlaces {
    /// The table of a unit, in time for its data names. No answer depends on the keys.
    pub fn new(alloc: Global, keys: Keys, unit: &Unit) -> Result<NamePlaces, NoMemory>
        ensures { IfOk result (AreNamePlaces unit.now) }
    {
        let names = unit.names.as_slice();
        let mut table = PlaceTable::new(alloc, keys);
        let mut left = names.len();
        while left > 0 {
            left -= 1;
            table.put(names[left].name, left)?;
        }
        Ok(NamePlaces { table })
    }

    /// The place of the data name with a name in the unit of the table.
    pub fn place(&self, unit: &Unit, name: &Name) -> Option<usize>
        requires { AreNamePlaces unit.now self.now }
        ensures place { result ≡ name_place unit.now name.now }
        ensures within { IfSome result (λ i. i < length unit.now.names) }
        ensures entry { data_at unit.now.names result ≡ data_name unit.now name.now }
    {
        let names = unit.names.as_slice();
        let Some(place) = self.table.get(name) else {
            return None;
        };
        prove!(place < names.len());
        Some(place)
    }

    /// The data name with a name in the unit of the table.
    pub fn data<'a>(&self, unit: &'a Unit, name: &Name) -> Option<&'a DataName>
        requires { AreNamePlaces unit.now self.now }
        ensures { option_copied result ≡ data_name unit.now name.now }
    {
        match self.place(unit, name) {
            Some(place) => unit.names.as_slice().get(place),
            None => None,
        }
    }
}
