// The tables of a unit.
ghost use Rattle.std.specs.Prelude.{◌≡◌, [], IfOk, OnOk};
ghost use Rattle.name_tables.specs.Tables.{all_told};
ghost use Rattle.call_sites.specs.Books.{numbered, sorts_told, with_block, with_blocks, is_blank, has_blank};

use edge_io::{Keys, NoMemory};
use fort_syntax::{BlockName, FunctionName, Group, Name, Sort};
use name_tables::{NameSet, Table};
use std::alloc::Global;

/// The types of functions.
pub(crate) fn tell_sorts(
    alloc: Global,
    keys: Keys,
    functions: &[FunctionName],
) -> Result<Table<Sort>, NoMemory>
    ensures { IfOk result (λ table. table ≡ all_told [] (sorts_told functions.now)) }
{
    let mut table = Table::new(alloc, keys);
    for function in functions {
        let Ok(()) = table.tell(function.name, function.sort) else {
            return Err(NoMemory);
        };
    }
    Ok(table)
}

/// The numbers of names, from 0.
pub(crate) fn tell_numbers(
    alloc: Global,
    keys: Keys,
    names: &[Name],
) -> Result<Table<usize>, NoMemory>
    ensures { IfOk result (λ table. table ≡ all_told [] (numbered names.now 0)) }
{
    let mut table = Table::new(alloc, keys);
    for k in 0..names.len() {
        let Ok(()) = table.tell(names[k], k) else {
            return Err(NoMemory);
        };
    }
    Ok(table)
}

fn add_block(set: &mut NameSet, block: &BlockName) -> Result<(), NoMemory>
    ensures { OnOk result (set.new ≡ with_block set.old block.now) }
{
    match block {
        BlockName::Named(name) => {
            let Ok(_) = set.add(*name) else {
                return Err(NoMemory);
            };
            Ok(())
        }
        BlockName::Bare => Ok(()),
        BlockName::Slashes => Ok(()),
    }
}

/// The names of blocks, added to a set.
pub fn add_blocks(set: &mut NameSet, groups: &[Group]) -> Result<(), NoMemory>
    ensures { OnOk result (set.new ≡ with_blocks set.old groups.now) }
{
    for group in groups {
        let Ok(()) = add_block(set, &group.block) else {
            return Err(NoMemory);
        };
    }
    Ok(())
}

fn is_blank(block: &BlockName) -> bool
    ensures { result ≡ is_blank block.now }
{
    match block {
        BlockName::Named(_) => false,
        BlockName::Bare => true,
        BlockName::Slashes => true,
    }
}

/// Whether one of some blocks is blank COMMON.
pub(crate) fn has_blank(groups: &[Group]) -> bool
    ensures { result ≡ has_blank groups.now }
{
    for group in groups {
        if is_blank(&group.block) {
            return true;
        }
    }
    false
}
