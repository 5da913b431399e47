// What a call answers.
ghost use Rattle.std.specs.Prelude.{◌≡◌, OnOk};
ghost use Rattle.formula.specs.Pool.{IsIn, tree_of};
ghost use Rattle.formula.specs.Tree.{Tree};
ghost use Rattle.fort_model.specs.Events.{takes};
ghost use Rattle.fort_model.specs.Seen.{meet};
ghost use Rattle.fort_model.specs.WalkCalls.{Sight, changed, result_facts};
ghost use Rattle.call_facts.specs.Calls.{called};
ghost use Rattle.walk_state.specs.Moments.{Follows, IsWalk, moment, with_names};
ghost use Rattle.walk_values.specs.Parts.{Does};

use edge_io::NoMemory;
use formula::TermId;
use fort_syntax::{Name, Sort};
use walk_state::Walk;
use walk_terms::{cell_sort, defined};

/// The smashed names stand for the symbols of the call of a number from now on: X-k for a name X.
/// The others stand for what they stood for.
pub fn smash(walk: &mut Walk, number: u32, names: &[Name]) -> Result<(), NoMemory>
    requires { IsWalk walk.old }
    ensures on { Follows walk.old walk.new }
    ensures smashed { OnOk result ((w : Sight Tree) → moment walk.new ≡ with_names (moment walk.old)
        (changed w names.now (called number) (moment walk.old).now)) }
{
    for name in names {
        let symbol = walk.answer(number, name)?;
        walk.set(name, symbol)?;
    }
    Ok(())
}

/// The value of a function is defined and of its type; nothing of a subroutine, which has none.
pub fn take_result(walk: &mut Walk, sort: Option<Sort>, value: TermId) -> Result<(), NoMemory>
    requires well { IsWalk walk.old }
    requires value { IsIn walk.old.pool value }
    ensures on { Follows walk.old walk.new }
    ensures did { OnOk result (Does (moment walk.old)
        (λ w. meet (takes (result_facts w sort (tree_of walk.old.pool value))))
        (moment walk.new) tt) }
{
    let Some(sort) = sort else {
        return Ok(());
    };
    let Ok(is_defined) = defined(&mut walk.pool, value) else {
        return Err(NoMemory);
    };
    let Ok(cell) = cell_sort(&mut walk.pool, sort, value) else {
        return Err(NoMemory);
    };
    walk.take(is_defined)?;
    walk.take(cell)?;
    Ok(())
}
