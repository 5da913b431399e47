// The names of a caller that a call smashes.
ghost use Rattle.std.specs.Prelude.{◌≡◌, ◌++◌, [], IfOk, OnOk};
ghost use Rattle.formula.specs.Atoms.{is_among};
ghost use Rattle.fort_syntax.specs.Names.{has_common};
ghost use Rattle.call_hits.specs.Hits.{AreHits, actual_hits, group_hits, hit, is_hit, item_hits};

use call_sites::Book;
use edge_io::{List, NoMemory};
use fort_syntax::{Group, Name, Role};
use name_tables::NameSet;
use std::alloc::Global;

fn push_hit(
    all: &mut Vec<Name>,
    smashed: &NameSet,
    dummy: &Name,
    bare: &Option<Name>,
) -> Result<(), NoMemory>
    ensures { OnOk result (all.new.items ≡ all.old.items ++ hit (λ x. is_among x smashed.now)
        dummy.now bare.now) }
{
    match bare {
        Some(name) => {
            if !smashed.has(dummy) {
                return Ok(());
            }
            match all.push(*name) {
                Ok(()) => Ok(()),
                Err(_) => Err(NoMemory),
            }
        }
        None => Ok(()),
    }
}

/// Adds the bare actuals of smashed dummies.
fn push_actuals(
    all: &mut Vec<Name>,
    smashed: &NameSet,
    dummies: &[Name],
    bare: &[Option<Name>],
) -> Result<(), NoMemory>
    ensures { OnOk result (all.new.items ≡ all.old.items ++ actual_hits
        (λ x. is_among x smashed.now) dummies.now bare.now) }
{
    let count = dummies.len().min(bare.len());
    for i in 0..count {
        let Ok(()) = push_hit(all, smashed, &dummies[i], &bare[i]) else {
            return Err(NoMemory);
        };
    }
    Ok(())
}

fn has_common(callee: &Book, name: &Name) -> bool
    ensures { result ≡ has_common callee.now.unit.now name.now }
{
    match callee.data(name) {
        Some(data) => matches!(data.role, Role::InCommon),
        None => false,
    }
}

fn is_hit(smashed: &NameSet, callee: &Book, name: &Name) -> bool
    ensures { result ≡ is_hit (λ x. is_among x smashed.now) callee.now.unit.now name.now }
{
    has_common(callee, name) && smashed.has(name)
}

fn push_group(
    all: &mut Vec<Name>,
    smashed: &NameSet,
    callee: &Book,
    group: &Group,
) -> Result<(), NoMemory>
    ensures { OnOk result (all.new.items ≡ all.old.items ++ item_hits (λ x. is_among x smashed.now)
        callee.now.unit.now group.now.items) }
{
    let items = group.items.as_slice();
    for item in items {
        if is_hit(smashed, callee, &item.name) {
            let Ok(()) = all.push(item.name) else {
                return Err(NoMemory);
            };
        }
    }
    Ok(())
}

/// Adds the COMMON entities of the caller that the called unit has too, and smashes.
fn push_commons(
    all: &mut Vec<Name>,
    smashed: &NameSet,
    callee: &Book,
    groups: &[Group],
) -> Result<(), NoMemory>
    ensures { OnOk result (all.new.items ≡ all.old.items ++ group_hits (λ x. is_among x smashed.now)
        callee.now.unit.now groups.now) }
{
    for group in groups {
        let Ok(()) = push_group(all, smashed, callee, group) else {
            return Err(NoMemory);
        };
    }
    Ok(())
}

/// The names of the caller that a call smashes: the bare actuals of smashed dummies, in order, and then the COMMON entities of
/// both units that the called one smashes, in the caller's order. `smashed` are the names that the called unit smashes, and
/// `bare` has for each actual its name where it is a bare one.
pub fn call_hits(
    alloc: Global,
    caller: &Book,
    callee: &Book,
    smashed: &NameSet,
    bare: &[Option<Name>],
) -> Result<List<Name>, NoMemory>
    ensures { IfOk result (AreHits caller.now.unit.now callee.now.unit.now smashed.now bare.now) }
{
    let mut all = Vec::new(alloc);
    let dummies = callee.unit.dummies.as_slice();
    let Ok(()) = push_actuals(&mut all, smashed, dummies, bare) else {
        return Err(NoMemory);
    };
    let Ok(()) = push_commons(&mut all, smashed, callee, caller.unit.blocks.as_slice()) else {
        return Err(NoMemory);
    };
    Ok(List::from_vec(all))
}
