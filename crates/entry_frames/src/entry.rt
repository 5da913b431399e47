// Names at the entry.
ghost use Rattle.std.specs.Prelude.{◌≡◌, IfOk, IsSome, OnOk};
ghost use Rattle.formula.specs.Pool.{Grows, IsIn, tree_of};
ghost use Rattle.fort_model.specs.Senses.{of_terms};
ghost use Rattle.fort_syntax.specs.Names.{is_own};
ghost use Rattle.fort_model.specs.WalkPlaces as walks;
ghost use Rattle.walk_names.specs.Names.{IsNames, entry_of, named};
ghost use Rattle.walk_places.specs.Shapes.{IsGoodShape};
ghost use Rattle.entry_frames.specs.Entries.{AreGoodShapes, HasGoodShape, IsEntered, IsOneSet, value_of};

use edge_io::{Keys, NoMemory};
use formula::{TermId, TermPool};
use fort_syntax::{DataName, Dim, Role, Unit};
use std::alloc::Global;
use walk_names::Names;
use walk_places::blank;
use walk_terms::entry_symbol;

/// What a name with these dimensions stands for where it got new cells.
fn blank_at_entry(
    alloc: Global,
    keys: Keys,
    pool: &mut TermPool,
    dims: &[Dim],
) -> Result<TermId, NoMemory>
    requires shape { IsGoodShape dims.now }
    requires fixed { IsSome (walks.size_if_fixed dims.now) }
    ensures grows { Grows pool.old pool.new }
    ensures is_in { IfOk result (λ id. IsIn pool.new id) }
    ensures tree { IfOk result (λ id. tree_of pool.new id ≡ walks.blank_by of_terms entry_of dims.now) }
{
    let names = Names::new(alloc, keys);
    blank(pool, &names, dims)
}

/// Whether data names with a role get new cells at each entry.
fn is_own(role: Role) -> bool
    ensures { result ≡ is_own role }
{
    match role {
        Role::Dummy | Role::InCommon => false,
        Role::OwnValue | Role::Local => true,
    }
}

/// What a data name stands for at the entry: dummies and COMMON entities for the symbols of their
/// values, the others for new cells.
fn value_of(
    alloc: Global,
    keys: Keys,
    pool: &mut TermPool,
    entity: &DataName,
) -> Result<TermId, NoMemory>
    requires shape { HasGoodShape entity.now }
    ensures grows { Grows pool.old pool.new }
    ensures is_in { IfOk result (λ id. IsIn pool.new id) }
    ensures tree { IfOk result (λ id. tree_of pool.new id ≡ value_of entity.now) }
{
    if is_own(entity.role) {
        blank_at_entry(alloc, keys, pool, entity.dims.as_slice())
    } else {
        entry_symbol(alloc, pool, &entity.name)
    }
}

/// A data name stands for what it does at the entry.
fn set_entry(
    alloc: Global,
    keys: Keys,
    pool: &mut TermPool,
    names: &mut Names,
    entity: &DataName,
) -> Result<(), NoMemory>
    requires kept { IsNames pool.old names.old }
    requires shape { HasGoodShape entity.now }
    ensures { OnOk result (IsOneSet pool.old names.old pool.new names.new entity.now.name
        (value_of entity.now)) }
{
    let Ok(value) = value_of(alloc, keys, pool, entity) else {
        return Err(NoMemory);
    };
    let Ok(()) = names.know(alloc, pool, &entity.name) else {
        return Err(NoMemory);
    };
    let Ok(()) = names.set(alloc, pool, &entity.name, value) else {
        return Err(NoMemory);
    };
    Ok(())
}

/// The data names of a unit stand for what they do at its entry, where all names stood for the
/// symbols of their values at the entry. The last is set first, so that the first counts.
pub fn entry_names(
    alloc: Global,
    keys: Keys,
    pool: &mut TermPool,
    names: &mut Names,
    unit: &Unit,
) -> Result<(), NoMemory>
    requires kept { IsNames pool.old names.old }
    requires first { named pool.old names.old ≡ entry_of }
    requires shapes { AreGoodShapes unit.now.names }
    ensures { OnOk result (IsEntered pool.old names.old pool.new names.new unit.now.names) }
{
    let entities = unit.names.as_slice();
    let mut left = entities.len();
    while left > 0 {
        left -= 1;
        let Ok(()) = set_entry(alloc, keys, pool, names, &entities[left]) else {
            return Err(NoMemory);
        };
    }
    Ok(())
}
