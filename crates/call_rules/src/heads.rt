// The rules on calls that units as a whole break.
ghost use Rattle.std.specs.Prelude.{◌≡◌, [], IfOk};
ghost use Rattle.fort_syntax.specs.declared.rule.Rule.TheVariants.{Recursion, UnitTwice};
ghost use Rattle.stage_faults.specs.Scans.{first_of_two};
ghost use Rattle.call_rules.specs.CallFaults.{is_number};
ghost use Rattle.call_rules.specs.Taken.{is_taken, with_units};

use call_sites::{add_blocks, is_intrinsic};
use edge_io::{Keys, NoMemory};
use fort_syntax::{Name, Rule, Unit};
use name_tables::NameSet;
use std::alloc::Global;

/// The names of the blocks of units.
pub(crate) fn blocks_of_units(
    alloc: Global,
    keys: Keys,
    units: &[Unit],
) -> Result<NameSet, NoMemory>
    ensures { IfOk result (λ set. set ≡ with_units [] units.now) }
{
    let mut set = NameSet::new(alloc, keys);
    for unit in units {
        let Ok(()) = add_blocks(&mut set, unit.blocks.as_slice()) else {
            return Err(NoMemory);
        };
    }
    Ok(set)
}

/// Whether a name is among those of earlier units, of intrinsic functions, and of blocks.
fn is_taken(earlier: &NameSet, blocks: &NameSet, name: &Name) -> bool
    ensures { result ≡ is_taken earlier.now blocks.now name.now }
{
    earlier.has(name) || (is_intrinsic(name) || blocks.has(name))
}

fn is_number(recursive: &Option<usize>, number: usize) -> bool
    ensures { result ≡ is_number recursive.now number }
{
    match recursive {
        Some(first) => *first == number,
        None => false,
    }
}

/// The first rule that a unit as a whole breaks.
pub(crate) fn head_rule(
    earlier: &NameSet,
    blocks: &NameSet,
    recursive: &Option<usize>,
    number: usize,
    name: &Name,
) -> Option<Rule>
    ensures { result ≡ first_of_two UnitTwice Recursion (is_taken earlier.now blocks.now name.now)
        (is_number recursive.now number) }
{
    if is_taken(earlier, blocks, name) {
        Some(Rule::UnitTwice)
    } else if is_number(recursive, number) {
        Some(Rule::Recursion)
    } else {
        None
    }
}
