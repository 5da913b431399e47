// That a clock falls.
ghost use Rattle.std.specs.Prelude.{◌≡◌, length, OnOk};
ghost use Rattle.formula.specs.Pool.{AllBelow};
ghost use Rattle.fort_model.specs.Seen.{meet};
ghost use Rattle.note_terms.specs.Stated.{trees_in};
ghost use Rattle.path_ends.specs.Ends.{IsClockIn, clock_trees, fall_in};
ghost use Rattle.walk_state.specs.Moments.{Did, Follows, IsWalk, moment};

use crate::clock::Clock;
use edge_io::NoMemory;
use formula::TermId;
use fort_syntax::Kind;
use note_terms::fallen;
use walk_state::Walk;

/// Where the path started at an ASSERT, the parts of the clock are below those there.
pub(crate) fn check_fall(
    walk: &mut Walk,
    card: u32,
    clock: &Option<Clock>,
    new: &[TermId],
) -> Result<(), NoMemory>
    requires well { IsWalk walk.old }
    requires clock { IsClockIn (length walk.old.pool) clock.now }
    requires new { AllBelow (length walk.old.pool) new.now }
    ensures on { OnOk result (Follows walk.old walk.new) }
    ensures did { OnOk result (Did (moment walk.old)
        (meet (fall_in card (clock_trees walk.old.pool clock.now) (trees_in walk.old.pool new.now)))
        (moment walk.new) tt) }
{
    let Some(old) = clock else {
        return Ok(());
    };
    let Ok(goal) = fallen(&mut walk.pool, new, &old.parts) else {
        return Err(NoMemory);
    };
    let Ok(()) = walk.check(Kind::FallCheck, card, goal) else {
        return Err(NoMemory);
    };
    Ok(())
}
