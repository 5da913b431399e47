// Facts of a start.
ghost use Rattle.std.specs.Prelude.{◌≡◌, OnOk};
ghost use Rattle.fort_model.specs.Events.{takes};
ghost use Rattle.fort_model.specs.Seen.{meet};
ghost use Rattle.note_terms.specs.Stated.{facts_of_bound};
ghost use Rattle.start_terms.specs.Starts.{facts_of_dims};
ghost use Rattle.walk_state.specs.Moments.{Did, Follows, IsWalk, moment};

use edge_io::NoMemory;
use fort_syntax::Name;
use note_terms::bound_facts;
use start_terms::dim_terms;
use walk_lists::take_all;
use walk_state::Walk;

/// The processor has the integers up to the bound.
pub(crate) fn take_bound(walk: &mut Walk, bound: u64) -> Result<(), NoMemory>
    requires well { IsWalk walk.old }
    ensures on { OnOk result (Follows walk.old walk.new) }
    ensures did { OnOk result (Did (moment walk.old) (meet (takes (facts_of_bound bound)))
        (moment walk.new) tt) }
{
    let Ok(facts) = bound_facts(walk.alloc, &mut walk.pool, bound) else {
        return Err(NoMemory);
    };
    let Ok(()) = take_all(walk, &facts) else {
        return Err(NoMemory);
    };
    Ok(())
}

/// Dimensions are defined, and at least 1.
pub(crate) fn take_dims(walk: &mut Walk, dims: &[Name]) -> Result<(), NoMemory>
    requires well { IsWalk walk.old }
    ensures on { OnOk result (Follows walk.old walk.new) }
    ensures did { OnOk result (Did (moment walk.old)
        (meet (takes (facts_of_dims (moment walk.old).now dims.now))) (moment walk.new) tt) }
{
    let Ok(facts) = dim_terms(walk.alloc, &mut walk.pool, &walk.names, dims) else {
        return Err(NoMemory);
    };
    let Ok(()) = take_all(walk, &facts) else {
        return Err(NoMemory);
    };
    Ok(())
}
