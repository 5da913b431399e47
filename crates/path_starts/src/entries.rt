// A walk at the entry of a unit.
ghost use Rattle.std.specs.Prelude.{◌≡◌, IfOk, OnOk};
ghost use Rattle.formula.specs.Pool.{Grows};
ghost use Rattle.entry_frames.specs.Entries.{AreGoodShapes, HasNames, at_entry_in};
ghost use Rattle.walk_names.specs.Names.{entry_of};
ghost use Rattle.walk_state.specs.Moments.{Follows, IsWalk, at_first, moment, with_names};

use edge_io::{Keys, NoMemory};
use entry_frames::entry_names;
use formula::TermPool;
use fort_syntax::Unit;
use std::alloc::Global;
use walk_state::Walk;

/// The data names of a unit stand for what they do at its entry.
fn set_entries(walk: &mut Walk, keys: Keys, unit: &Unit) -> Result<(), NoMemory>
    requires well { IsWalk walk.old }
    requires first { (moment walk.old).now ≡ entry_of }
    requires shapes { AreGoodShapes unit.now.names }
    ensures on { OnOk result (Follows walk.old walk.new) }
    ensures names { OnOk result (moment walk.new ≡ with_names (moment walk.old)
        (at_entry_in unit.now.names)) }
    ensures has { OnOk result (HasNames unit.now.names walk.new.names.table) }
{
    let Ok(()) = entry_names(walk.alloc, keys, &mut walk.pool, &mut walk.names, unit) else {
        return Err(NoMemory);
    };
    Ok(())
}

/// A walk at the entry of a unit that has met nothing. No answer depends on the keys.
pub fn begin(alloc: Global, keys: Keys, pool: TermPool, unit: &Unit) -> Result<Walk, NoMemory>
    requires shapes { AreGoodShapes unit.now.names }
    ensures well { IfOk result (λ walk. IsWalk walk) }
    ensures grows { IfOk result (λ walk. Grows pool walk.pool) }
    ensures at { IfOk result (λ walk. moment walk ≡ with_names at_first (at_entry_in unit.now.names)) }
    ensures has { IfOk result (λ walk. HasNames unit.now.names walk.names.table) }
{
    let mut walk = Walk::new(alloc, keys, pool);
    let Ok(()) = set_entries(&mut walk, keys, unit) else {
        return Err(NoMemory);
    };
    Ok(walk)
}
