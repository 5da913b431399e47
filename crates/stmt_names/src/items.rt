// The items of declarations.
ghost use Rattle.std.specs.Prelude.{◌≡◌, ◌++◌, flat_map, IfOk, OnOk};
ghost use Rattle.fort_syntax.specs.Scopes.{kept, is_given_dims};
ghost use Rattle.fort_syntax.specs.Units.{items_by, names_of_items, names_in_dims, names_in_item};

use edge_io::{List, NoMemory};
use fort_syntax::{Dim, Group, Item, Name, Plain, Stmt};
use std::alloc::Global;

/// Whether a name with these dimensions is an array.
pub fn is_given(dims: &[Dim]) -> bool
    ensures { result ≡ is_given_dims dims.now }
{
    !dims.is_empty()
}

fn push_items(alloc: Global, all: &mut Vec<Item>, items: &[Item]) -> Result<(), NoMemory>
    ensures { OnOk result (all.new.items ≡ all.old.items ++ items.now) }
{
    for item in items {
        let Ok(item) = item.copied(alloc) else {
            return Err(NoMemory);
        };
        if all.push(item).is_err() {
            return Err(NoMemory);
        }
    }
    Ok(())
}

fn items_in(alloc: Global, groups: &[Group]) -> Result<List<Item>, NoMemory>
    ensures { IfOk result (λ items. items ≡ flat_map (λ group. group.items) groups.now) }
{
    let mut all = Vec::new(alloc);
    for group in groups {
        let Ok(()) = push_items(alloc, &mut all, group.items.as_slice()) else {
            return Err(NoMemory);
        };
    }
    Ok(List::from_vec(all))
}

/// The items of a declaration.
pub fn items_by(alloc: Global, stmt: &Stmt) -> Result<List<Item>, NoMemory>
    ensures { IfOk result (λ items. items ≡ items_by stmt.now) }
{
    match stmt {
        Stmt::Declare(_, items) => items.copied(alloc),
        Stmt::Dimension(items) => items.copied(alloc),
        Stmt::Common(groups) => items_in(alloc, groups.as_slice()),
        _ => Ok(List::from_vec(Vec::new(alloc))),
    }
}

/// The names of items.
pub fn names_of(alloc: Global, items: &[Item]) -> Result<List<Name>, NoMemory>
    ensures { IfOk result (λ names. names ≡ names_of_items items.now) }
{
    let mut all = Vec::new(alloc);
    for item in items {
        if all.push(item.name).is_err() {
            return Err(NoMemory);
        }
    }
    Ok(List::from_vec(all))
}

/// The names of the items that have dimensions.
pub fn dimensioned(alloc: Global, items: &[Item]) -> Result<List<Name>, NoMemory>
    ensures { IfOk result (λ names. names ≡ names_of_items
        (kept (λ item. is_given_dims item.dims) items.now)) }
{
    let mut all = Vec::new(alloc);
    for item in items {
        if is_given(item.dims.as_slice()) && all.push(item.name).is_err() {
            return Err(NoMemory);
        }
    }
    Ok(List::from_vec(all))
}

fn push_dims(all: &mut Vec<Name>, dims: &[Dim]) -> Result<(), NoMemory>
    ensures { OnOk result (all.new.items ≡ all.old.items ++ names_in_dims dims.now) }
{
    for dim in dims {
        if let Dim::Named(name) = *dim {
            if all.push(name).is_err() {
                return Err(NoMemory);
            }
        }
    }
    Ok(())
}

/// The names in items, those that are dimensions among them.
pub(crate) fn names_in(alloc: Global, items: &[Item]) -> Result<List<Name>, NoMemory>
    ensures { IfOk result (λ names. names ≡ flat_map names_in_item items.now) }
{
    let mut all = Vec::new(alloc);
    for item in items {
        if all.push(item.name).is_err() {
            return Err(NoMemory);
        }
        let Ok(()) = push_dims(&mut all, item.dims.as_slice()) else {
            return Err(NoMemory);
        };
    }
    Ok(List::from_vec(all))
}
