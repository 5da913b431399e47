// The names of a unit in the order of their slots.
ghost use Rattle.std.specs.Prelude.{◌≡◌, [], ◌∷◌, ◌++◌, map, IfOk, OnOk};
ghost use Rattle.fort_syntax.specs.Names.{is_own, items_of, own_in};
ghost use Rattle.run_shapes.specs.Coded.{slot_names};

use edge_io::NoMemory;
use fort_syntax::{DataName, Group, Item, Name, Role, Unit};
use std::alloc::Global;

fn push(all: &mut Vec<Name>, name: Name) -> Result<(), NoMemory>
    ensures { OnOk result (all.new.items ≡ all.old.items ++ name ∷ []) }
{
    match all.push(name) {
        Ok(()) => Ok(()),
        Err(_) => Err(NoMemory),
    }
}

fn is_own(role: Role) -> bool
    ensures { result ≡ is_own role }
{
    match role {
        Role::Dummy => false,
        Role::InCommon => false,
        Role::OwnValue => true,
        Role::Local => true,
    }
}

fn push_dummies(all: &mut Vec<Name>, dummies: &[Name]) -> Result<(), NoMemory>
    ensures { OnOk result (all.new.items ≡ all.old.items ++ dummies.now) }
{
    for name in dummies {
        push(all, *name)?;
    }
    Ok(())
}

/// Adds the names that get new cells.
fn push_own(all: &mut Vec<Name>, names: &[DataName]) -> Result<(), NoMemory>
    ensures { OnOk result (all.new.items ≡ all.old.items ++ map (λ d. d.name) (own_in names.now)) }
{
    for data in names {
        if is_own(data.role) {
            push(all, data.name)?;
        }
    }
    Ok(())
}

fn push_items(all: &mut Vec<Name>, items: &[Item]) -> Result<(), NoMemory>
    ensures { OnOk result (all.new.items ≡ all.old.items ++ map (λ item. item.name) items.now) }
{
    for item in items {
        push(all, item.name)?;
    }
    Ok(())
}

/// Adds the COMMON entities.
fn push_blocks(all: &mut Vec<Name>, blocks: &[Group]) -> Result<(), NoMemory>
    ensures { OnOk result (all.new.items ≡ all.old.items ++ items_of blocks.now) }
{
    for group in blocks {
        push_items(all, group.items.as_slice())?;
    }
    Ok(())
}

/// The data names of a unit in the order of their slots: the dummies, the names that get new cells
/// at each entry, and the COMMON entities.
pub fn names_of_slots(alloc: Global, unit: &Unit) -> Result<Vec<Name>, NoMemory>
    ensures { IfOk result (λ all. all.items ≡ slot_names unit.now) }
{
    let mut all = Vec::new(alloc);
    push_dummies(&mut all, unit.dummies.as_slice())?;
    push_own(&mut all, unit.names.as_slice())?;
    push_blocks(&mut all, unit.blocks.as_slice())?;
    Ok(all)
}
