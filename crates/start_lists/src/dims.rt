// The dummies of a unit that are dimensions.
ghost use Rattle.std.specs.Prelude.{◌≡◌, ◌||◌, ◌++◌, ◌∷◌, [], cond, List, IfOk, OnOk};
ghost use Rattle.std.specs.List.{list_any};
ghost use Rattle.formula.specs.Atoms.{is_among};
ghost use Rattle.fort_model.specs.Walk.{dim_dummies, is_dim, is_some_dim};
ghost use Rattle.fort_syntax.specs.declared.name.Name.{Name as Text};

use edge_io::{Keys, NoMemory};
use fort_syntax::{Dim, Name, Unit};
use name_tables::NameSet;
use std::alloc::Global;

/// Adds a name that is a dimension to a set.
fn add_dim(set: &mut NameSet, dim: &Dim) -> Result<(), NoMemory>
    ensures { OnOk result ((x : Text) → is_among x set.new ≡ (is_among x set.old || is_dim x dim.now)) }
{
    match dim {
        Dim::Fixed(_) => Ok(()),
        Dim::Named(name) => {
            let Ok(_) = set.add(*name) else {
                return Err(NoMemory);
            };
            Ok(())
        }
    }
}

/// Adds the names that are dimensions of an array.
fn add_dims(set: &mut NameSet, dims: &[Dim]) -> Result<(), NoMemory>
    ensures { OnOk result ((x : Text) → is_among x set.new ≡ (is_among x set.old || list_any
        (is_dim x) dims.now)) }
{
    for dim in dims {
        let Ok(()) = add_dim(set, dim) else {
            return Err(NoMemory);
        };
    }
    Ok(())
}

/// The names that are dimensions of some array of the unit.
fn some_dims(alloc: Global, keys: Keys, unit: &Unit) -> Result<NameSet, NoMemory>
    ensures { IfOk result (λ set. (x : Text) → is_among x set ≡ is_some_dim unit.now x) }
{
    let mut set = NameSet::new(alloc, keys);
    let names = unit.names.as_slice();
    for data in names {
        let Ok(()) = add_dims(&mut set, data.dims.as_slice()) else {
            return Err(NoMemory);
        };
    }
    Ok(set)
}

/// Adds a name to some where a test holds.
pub(crate) fn keep(names: &mut Vec<Name>, name: &Name, test: bool) -> Result<(), NoMemory>
    ensures { OnOk result (names.new.items ≡ names.old.items ++ cond test (name.now ∷ []) []) }
{
    if !test {
        return Ok(());
    }
    let Ok(()) = names.push(*name) else {
        return Err(NoMemory);
    };
    Ok(())
}

/// The dummies of a unit that are dimensions of its arrays, in order. No answer depends on the keys.
pub fn dim_dummies(alloc: Global, keys: Keys, unit: &Unit) -> Result<Vec<Name>, NoMemory>
    ensures { IfOk result (λ names. names.items ≡ dim_dummies unit.now) }
{
    let Ok(set) = some_dims(alloc, keys, unit) else {
        return Err(NoMemory);
    };
    let mut names = Vec::new(alloc);
    let dummies = unit.dummies.as_slice();
    for name in dummies {
        let Ok(()) = keep(&mut names, name, set.has(name)) else {
            return Err(NoMemory);
        };
    }
    Ok(names)
}
