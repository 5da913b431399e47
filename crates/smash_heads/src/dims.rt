// Names that are dimensions.
ghost use Rattle.std.specs.Prelude.{◌≡◌, ◌&&◌, [], flat_map, IfOk, OnOk};
ghost use Rattle.std.specs.List.{list_any};
ghost use Rattle.formula.specs.Atoms.{is_among};
ghost use Rattle.fort_syntax.specs.Units.{names_in_dims};
ghost use Rattle.fort_model.specs.Walk.{is_some_dim};
ghost use Rattle.name_tables.specs.Sets.{with_names};
ghost use Rattle.smash_heads.specs.Dimensions.{names_in_dim};

use edge_io::{Keys, NoMemory};
use fort_syntax::{DataName, Dim, Unit};
use name_tables::NameSet;
use std::alloc::Global;

/// Adds the name that a dimension is, where it is one.
fn add_dim(set: &mut NameSet, dim: &Dim) -> Result<(), NoMemory>
    ensures { OnOk result (set.new ≡ with_names set.old (names_in_dim dim.now)) }
{
    match dim {
        Dim::Fixed(_) => Ok(()),
        Dim::Named(name) => {
            let Ok(_) = set.add(*name) else {
                return Err(NoMemory);
            };
            Ok(())
        }
    }
}

/// Adds the names that dimensions are.
#[tactic(auto, using(crate::proofs::Dimensioned::one_dim))]
fn add_dims(set: &mut NameSet, dims: &[Dim]) -> Result<(), NoMemory>
    ensures { OnOk result (set.new ≡ with_names set.old (names_in_dims dims.now)) }
{
    for dim in dims {
        add_dim(set, dim)?;
    }
    Ok(())
}

/// The names that are dimensions of some data names.
fn dim_names(alloc: Global, keys: Keys, names: &[DataName]) -> Result<NameSet, NoMemory>
    ensures { IfOk result (λ set. set ≡ with_names [] (flat_map (λ d. names_in_dims d.dims) names.now)) }
{
    let mut set = NameSet::new(alloc, keys);
    for entry in names {
        add_dims(&mut set, entry.dims.as_slice())?;
    }
    Ok(set)
}

/// Whether some data name is in both of two sets.
fn some_in_both(a: &NameSet, b: &NameSet, names: &[DataName]) -> bool
    ensures { result ≡ list_any (λ d. is_among d.name a.now && is_among d.name b.now) names.now }
{
    for entry in names {
        if a.has(&entry.name) && b.has(&entry.name) {
            return true;
        }
    }
    false
}

/// Whether a unit smashes a name that is a dimension of one of its arrays, where it smashes these names.
pub(crate) fn dim_smashed(
    alloc: Global,
    keys: Keys,
    unit: &Unit,
    smashed: &NameSet,
) -> Result<bool, NoMemory>
    ensures { IfOk result (λ found. found ≡ list_any (λ d. is_some_dim unit.now d.name
        && is_among d.name smashed.now) unit.now.names) }
{
    let names = unit.names.as_slice();
    let dims = dim_names(alloc, keys, names)?;
    Ok(some_in_both(&dims, smashed, names))
}
