// The rule that is told at the head of a unit.
ghost use Rattle.std.specs.Prelude.{◌≡◌, ◌&&◌, not, IfOk};
ghost use Rattle.std.specs.List.{list_any};
ghost use Rattle.formula.specs.Atoms.{is_among};
ghost use Rattle.fort_syntax.specs.Names.{is_own, is_function};
ghost use Rattle.fort_model.specs.Walk.{is_some_dim};
ghost use Rattle.smash_heads.specs.Heads.{told_at_head};

use crate::dims::dim_smashed;
use crate::functions::function_smashes;
use edge_io::{Keys, NoMemory};
use fort_syntax::{Rule, Unit};
use name_tables::NameSet;
use std::alloc::Global;

fn first_of_both(function: bool, dim: bool) -> Option<Rule>
    ensures { result ≡ told_at_head function dim }
{
    if function {
        Some(Rule::FunctionSmashes)
    } else if dim {
        Some(Rule::DimensionSmashed)
    } else {
        None
    }
}

/// The first rule that is broken at the head of a unit which smashes these names: 45 where it is a FUNCTION and one of them is a
/// dummy or a COMMON entity of it, else 49 where one of them is a dimension of one of its arrays. No answer depends on the keys.
pub fn head_rule(
    alloc: Global,
    keys: Keys,
    unit: &Unit,
    smashed: &NameSet,
) -> Result<Option<Rule>, NoMemory>
    ensures { IfOk result (λ rule. rule ≡ told_at_head
        (is_function unit.now && list_any (λ d. not (is_own d.role) && is_among d.name smashed.now) unit.now.names)
        (list_any (λ d. is_some_dim unit.now d.name && is_among d.name smashed.now) unit.now.names)) }
{
    let dim = dim_smashed(alloc, keys, unit, smashed)?;
    Ok(first_of_both(function_smashes(unit, smashed), dim))
}
