// The COMMON entities of a deck.
ghost use Rattle.std.specs.Prelude.{◌≡◌, ◌≤◌, [], ◌∷◌, ◌++◌, drop, length, map, IfOk, OnOk};
ghost use Rattle.fort_syntax.specs.Names.{is_own, items_of, own_in};
ghost use Rattle.name_tables.specs.Sets.{with_names};
ghost use Rattle.name_tables.specs.Tables.{all_told};
ghost use Rattle.run_coding.specs.Pushed.{slot_in};
ghost use Rattle.run_slots.specs.Slotted.{slotted};
ghost use Rattle.run_units.specs.Commons.{commons_of};

use edge_io::{Keys, NoMemory};
use fort_syntax::{DataName, Group, Item, Name, Role, Unit};
use name_tables::NameSet;
use run_slots::SlotTable;
use std::alloc::Global;

fn add(set: &mut NameSet, name: Name) -> Result<(), NoMemory>
    ensures { OnOk result (set.new ≡ with_names set.old (name ∷ [])) }
{
    match set.add(name) {
        Ok(_) => Ok(()),
        Err(_) => Err(NoMemory),
    }
}

fn add_items(set: &mut NameSet, items: &[Item]) -> Result<(), NoMemory>
    ensures { OnOk result (set.new ≡ with_names set.old (map (λ item. item.name) items.now)) }
{
    for item in items {
        add(set, item.name)?;
    }
    Ok(())
}

fn add_blocks(set: &mut NameSet, blocks: &[Group]) -> Result<(), NoMemory>
    ensures { OnOk result (set.new ≡ with_names set.old (items_of blocks.now)) }
{
    for group in blocks {
        add_items(set, group.items.as_slice())?;
    }
    Ok(())
}

fn push_name(all: &mut Vec<Name>, name: Name) -> Result<(), NoMemory>
    ensures { OnOk result (all.new.items ≡ all.old.items ++ name ∷ []) }
{
    match all.push(name) {
        Ok(()) => Ok(()),
        Err(_) => Err(NoMemory),
    }
}

fn copied(alloc: Global, names: &[Name]) -> Result<Vec<Name>, NoMemory>
    ensures { IfOk result (λ all. all.items ≡ names.now) }
{
    let mut all = Vec::new(alloc);
    for name in names {
        push_name(&mut all, *name)?;
    }
    Ok(all)
}

/// The COMMON entities of all units, each once.
pub(crate) fn commons_of_units(
    alloc: Global,
    keys: Keys,
    units: &[Unit],
) -> Result<Vec<Name>, NoMemory>
    ensures { IfOk result (λ all. all.items ≡ commons_of [] units.now) }
{
    let mut set = NameSet::new(alloc, keys);
    for unit in units {
        add_blocks(&mut set, unit.blocks.as_slice())?;
    }
    copied(alloc, set.names())
}

/// The slot of a name by a table; 0 where it has none.
fn place_of(table: &SlotTable, names: &[Name], name: &Name) -> usize
    requires { table.now ≡ all_told [] (slotted names.now 0) }
    ensures { result ≡ slot_in names.now name.now }
{
    match table.find(name) {
        Some(slot) => slot,
        None => 0,
    }
}

fn push_place(places: &mut Vec<usize>, place: usize) -> Result<(), NoMemory>
    ensures { OnOk result (places.new.items ≡ places.old.items ++ place ∷ []) }
{
    match places.push(place) {
        Ok(()) => Ok(()),
        Err(_) => Err(NoMemory),
    }
}

/// The COMMON entities of a deck with a table of their places.
#[derive(Drop)]
pub(crate) struct Commons<'a> {
    pub(crate) names: &'a [Name],
    pub(crate) table: &'a SlotTable,
    ghost table_is: { table.now ≡ all_told [] (slotted names.now 0) },
}

impl<'a> Commons<'a> {
    /// The places of names behind the first ones.
    pub(crate) fn places(
        &self,
        alloc: Global,
        names: &[Name],
        first: usize,
    ) -> Result<Vec<usize>, NoMemory>
        ensures { IfOk result (λ places. places.items ≡ map (slot_in self.now.names.now)
            (drop first names.now)) }
    {
        let mut places = Vec::new(alloc);
        for at in first..names.len() {
            push_place(&mut places, place_of(self.table, self.names, &names[at]))?;
        }
        Ok(places)
    }
}

fn is_own(role: Role) -> bool
    ensures { result ≡ is_own role }
{
    match role {
        Role::Dummy => false,
        Role::InCommon => false,
        Role::OwnValue => true,
        Role::Local => true,
    }
}

/// How many names get new cells.
pub(crate) fn count_own(names: &[DataName]) -> usize
    ensures value { result ≡ length (own_in names.now) }
    ensures within { result ≤ length names.now }
{
    let mut count: usize = 0;
    for data in names {
        if is_own(data.role) {
            count += 1;
        }
    }
    count
}
