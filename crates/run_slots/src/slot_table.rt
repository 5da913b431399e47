// A table of slots by name.
ghost use Rattle.std.specs.Prelude.{◌≡◌, ◌<◌, true, [], length, get_or, IfOk};
ghost use Rattle.formula.specs.Atoms.{is_among};
ghost use Rattle.name_tables.specs.Tables.{all_told, first_of};
ghost use Rattle.run_slots.specs.Slotted.{slotted};

use edge_io::{Keys, NoMemory};
use fort_syntax::Name;
use name_tables::Table;
use std::alloc::Global;
use std::marker::Model;

/// The slots of names, which contracts see as the list of the names with their slots; where a name
/// stands twice, the first of them counts.
#[derive(Drop)]
pub struct SlotTable {
    table: Table<usize>,
}

impl Model for SlotTable {
    ghost use Rattle.std.specs.Prelude.{List, ℕ};

    ghost Value = { List (List ℕ × ℕ) };

    ghost view = { λ t. t.table };
}

impl SlotTable {
    /// The table of some names, of which each has its place as its slot; in time for the names. No
    /// answer depends on the keys.
    pub fn new(alloc: Global, keys: Keys, names: &[Name]) -> Result<SlotTable, NoMemory>
        ensures { IfOk result (λ t. t ≡ all_told [] (slotted names.now 0)) }
    {
        let mut table = Table::new(alloc, keys);
        for slot in 0..names.len() {
            let Ok(()) = table.tell(names[slot], slot) else {
                return Err(NoMemory);
            };
        }
        Ok(SlotTable { table })
    }

    /// The slot of a name, where the table has one.
    pub fn find(&self, name: &Name) -> Option<usize>
        ensures { result ≡ first_of self.now name.now }
    {
        match self.table.get(name) {
            Some(slot) => Some(*slot),
            None => None,
        }
    }

    /// The slot of one of the names of the table.
    pub fn slot(&self, names: &[Name], name: &Name) -> usize
        requires table { self.now ≡ all_told [] (slotted names.now 0) }
        requires there { is_among name.now names.now ≡ true }
        ensures within { result < length names.now }
        ensures told { get_or names.now result [] ≡ name.now }
    {
        match self.table.get(name) {
            Some(slot) => *slot,
            None => 0,
        }
    }
}
