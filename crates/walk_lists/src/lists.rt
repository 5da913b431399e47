// Facts and checks in lists.
ghost use Rattle.std.specs.Prelude.{◌≡◌, length, OnOk};
ghost use Rattle.formula.specs.Pool.{AllBelow};
ghost use Rattle.fort_model.specs.Events.{checks, takes};
ghost use Rattle.fort_model.specs.Seen.{meet};
ghost use Rattle.note_terms.specs.Stated.{trees_in};
ghost use Rattle.walk_state.specs.Moments.{Did, Follows, IsWalk, moment};

use edge_io::NoMemory;
use formula::TermId;
use fort_syntax::Kind;
use walk_state::Walk;

/// Meets some facts, in order.
pub fn take_all(walk: &mut Walk, facts: &[TermId]) -> Result<(), NoMemory>
    requires well { IsWalk walk.old }
    requires facts { AllBelow (length walk.old.pool) facts.now }
    ensures on { Follows walk.old walk.new }
    ensures did { OnOk result (Did (moment walk.old)
        (meet (takes (trees_in walk.old.pool facts.now))) (moment walk.new) tt) }
{
    for fact in facts {
        walk.take(*fact)?;
    }
    Ok(())
}

/// Meets some checks of a kind at a card, in order.
pub fn check_all(walk: &mut Walk, kind: Kind, card: u32, goals: &[TermId]) -> Result<(), NoMemory>
    requires well { IsWalk walk.old }
    requires goals { AllBelow (length walk.old.pool) goals.now }
    ensures on { Follows walk.old walk.new }
    ensures did { OnOk result (Did (moment walk.old)
        (meet (checks kind card (trees_in walk.old.pool goals.now))) (moment walk.new) tt) }
{
    for goal in goals {
        walk.check(kind, card, *goal)?;
    }
    Ok(())
}
