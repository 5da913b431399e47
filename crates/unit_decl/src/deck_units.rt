// The units of a deck.
ghost use Rattle.std.specs.Prelude.{◌≡◌, true, map, IfOk};
ghost use Rattle.std.specs.List.{list_all};
ghost use Rattle.fort_syntax.specs.Units.{segments, unit_of};
ghost use Rattle.unit_decl.specs.Heads.{is_headed};

use crate::unit_blocks::unit_groups;
use crate::unit_names::{data_names, function_sort, functions};
use crate::unit_parts::{dummies, first_card, last_card, lines, unit_name};
use edge_io::{Keys, List, NoMemory};
use fort_syntax::{Line, Unit};
use order_faults::first_unit;
use std::alloc::Global;
use use_faults::roles_of;

/// The unit that some statements are, the first of which is a head.
fn unit_of(alloc: Global, keys: Keys, unit: &[Line]) -> Result<Unit, NoMemory>
    requires { is_headed unit.now ≡ true }
    ensures { IfOk result (λ made. made ≡ unit_of unit.now) }
{
    let Some(name) = unit_name(unit) else {
        unreachable!()
    };
    let Ok(roles) = roles_of(alloc, keys, unit) else {
        return Err(NoMemory);
    };
    let Ok(dummies) = dummies(alloc, unit) else {
        return Err(NoMemory);
    };
    let Ok(names) = data_names(alloc, &roles, name.as_bytes()) else {
        return Err(NoMemory);
    };
    let Ok(functions) = functions(alloc, &roles.scope, roles.references.names()) else {
        return Err(NoMemory);
    };
    let Ok(groups) = unit_groups(alloc, keys, &roles.scope, unit) else {
        return Err(NoMemory);
    };
    let Ok(lines) = lines(alloc, unit) else {
        return Err(NoMemory);
    };
    Ok(Unit {
        name,
        sort: function_sort(&roles, &name),
        head: first_card(unit),
        dummies,
        names,
        functions,
        blocks: groups,
        lines,
        end: last_card(unit),
    })
}

/// The units of a deck, each of which begins with a head.
pub(crate) fn units_of(alloc: Global, keys: Keys, lines: &[Line]) -> Result<List<Unit>, NoMemory>
    requires { list_all is_headed (segments lines.now) ≡ true }
    ensures { IfOk result (λ units. units ≡ map unit_of (segments lines.now)) }
{
    let mut all = Vec::new(alloc);
    let mut rest = lines;
    while !rest.is_empty() {
        let (unit, behind) = rest.split_at(first_unit(rest));
        let Ok(made) = unit_of(alloc, keys, unit) else {
            return Err(NoMemory);
        };
        let Ok(()) = all.push(made) else {
            return Err(NoMemory);
        };
        rest = behind;
    }
    Ok(List::from_vec(all))
}
