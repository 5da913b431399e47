// The names in the COMMON blocks of a unit.
ghost use Rattle.std.specs.Prelude.{◌≡◌, [], ◌++◌, IfOk, OnOk};
ghost use Rattle.indexmap.specs.IndexMap.{insert_entry};
ghost use Rattle.formula.specs.Atoms.{same_bytes};
ghost use Rattle.fort_syntax.specs.Units.{name_of_block, names_of_items};
ghost use Rattle.decl_faults.specs.Commons.{listed, appended, with_groups, tabled};

use edge_io::{Keys, List, NoMemory};
use fort_syntax::{BlockName, Group, Item, Line, Name};
use indexmap::IndexMap;
use name_tables::Key;
use std::alloc::Global;
use std::marker::Model;
use stmt_names::groups_by;

/// Blocks with their names, each as all groups of the block in the unit, joined in order.
#[derive(Drop)]
pub struct CommonTable {
    map: IndexMap<Key, List<Name>, Keys>,
}

impl Model for CommonTable {
    ghost use Rattle.std.specs.Prelude.{List, ℕ};

    ghost Value = { List (List ℕ × List (List ℕ)) };

    ghost view = { λ t. t.map.entries };
}

fn push_names(all: &mut Vec<Name>, items: &[Item]) -> Result<(), NoMemory>
    ensures { OnOk result (all.new.items ≡ all.old.items ++ names_of_items items.now) }
{
    for item in items {
        if all.push(item.name).is_err() {
            return Err(NoMemory);
        }
    }
    Ok(())
}

impl CommonTable {
    /// No block. It takes no memory. No answer depends on the keys.
    pub fn new(alloc: Global, keys: Keys) -> CommonTable
        ensures { result ≡ [] }
    {
        CommonTable {
            map: IndexMap::with_hasher(alloc, keys),
        }
    }

    /// The names in a block.
    pub fn names(&self, block: &BlockName) -> &[Name]
        ensures { result.now ≡ listed self.now (name_of_block block.now) }
    {
        match self.map.get(&Key::of_block(block)) {
            Some(names) => names.as_slice(),
            None => &[],
        }
    }

    /// Takes the names out of a block, which stays.
    fn emptied(&mut self, alloc: Global, block: &BlockName) -> Result<List<Name>, NoMemory>
        ensures names { IfOk result (λ names. names ≡ listed self.old (name_of_block block.now)) }
        ensures after { OnOk result (self.new ≡ insert_entry same_bytes self.old
            (name_of_block block.now) []) }
    {
        match self
            .map
            .insert(Key::of_block(block), List::from_vec(Vec::new(alloc)))
        {
            Ok(Some(names)) => Ok(names),
            Ok(None) => Ok(List::from_vec(Vec::new(alloc))),
            Err(_) => Err(NoMemory),
        }
    }

    fn put(&mut self, block: &BlockName, names: List<Name>) -> Result<(), NoMemory>
        ensures { OnOk result (self.new ≡ insert_entry same_bytes self.old (name_of_block block.now) names) }
    {
        match self.map.insert(Key::of_block(block), names) {
            Ok(_) => Ok(()),
            Err(_) => Err(NoMemory),
        }
    }

    /// Adds the names of items to a block.
    fn append(&mut self, alloc: Global, block: &BlockName, items: &[Item]) -> Result<(), NoMemory>
        ensures { OnOk result (self.new ≡ appended self.old (name_of_block block.now)
            (names_of_items items.now)) }
    {
        let Ok(names) = self.emptied(alloc, block) else {
            return Err(NoMemory);
        };
        let mut all = names.into_vec();
        let Ok(()) = push_names(&mut all, items) else {
            return Err(NoMemory);
        };
        self.put(block, List::from_vec(all))
    }

    fn append_groups(&mut self, alloc: Global, groups: &[Group]) -> Result<(), NoMemory>
        ensures { OnOk result (self.new ≡ with_groups self.old groups.now) }
    {
        for group in groups {
            let Ok(()) = self.append(alloc, &group.block, group.items.as_slice()) else {
                return Err(NoMemory);
            };
        }
        Ok(())
    }
}

/// The blocks of a unit.
pub fn commons_of(alloc: Global, keys: Keys, unit: &[Line]) -> Result<CommonTable, NoMemory>
    ensures { IfOk result (λ table. table ≡ tabled [] unit.now) }
{
    let mut table = CommonTable::new(alloc, keys);
    for line in unit {
        let Ok(()) = table.append_groups(alloc, groups_by(&line.stmt)) else {
            return Err(NoMemory);
        };
    }
    Ok(table)
}
