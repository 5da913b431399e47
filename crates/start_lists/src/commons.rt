// The COMMON entities of a unit.
ghost use Rattle.std.specs.Prelude.{◌≡◌, ◌++◌, map, IfOk, OnOk};
ghost use Rattle.fort_syntax.specs.Names.{commons};

use edge_io::NoMemory;
use fort_syntax::{Item, Name, Unit};
use std::alloc::Global;

/// Adds the names of some items of a block.
fn add_items(names: &mut Vec<Name>, items: &[Item]) -> Result<(), NoMemory>
    ensures { OnOk result (names.new.items ≡ names.old.items ++ map (λ item. item.name) items.now) }
{
    for item in items {
        let Ok(()) = names.push(item.name) else {
            return Err(NoMemory);
        };
    }
    Ok(())
}

/// The COMMON entities of a unit, in the order of declaration.
pub fn commons_of(alloc: Global, unit: &Unit) -> Result<Vec<Name>, NoMemory>
    ensures { IfOk result (λ names. names.items ≡ commons unit.now) }
{
    let mut names = Vec::new(alloc);
    let blocks = unit.blocks.as_slice();
    for group in blocks {
        let Ok(()) = add_items(&mut names, group.items.as_slice()) else {
            return Err(NoMemory);
        };
    }
    Ok(names)
}
