// The INPUT and OUTPUT of a called unit.
ghost use Rattle.std.specs.Prelude.{◌≡◌, true, length, map, OnOk};
ghost use Rattle.formula.specs.Pool.{AllBelow, IsIn, tree_of};
ghost use Rattle.fort_syntax.specs.declared.condition.Kind.TheVariants.{InputCheck};
ghost use Rattle.fort_model.specs.Events.{checks, takes};
ghost use Rattle.fort_model.specs.Seen.{meet};
ghost use Rattle.note_terms.specs.Stated.{are_known_terms, stated, trees_in};
ghost use Rattle.walk_names.specs.Names.{IsNames};
ghost use Rattle.walk_state.specs.Moments.{Did, Follows, IsWalk, moment};

use edge_io::NoMemory;
use formula::TermId;
use fort_syntax::Kind;
use note_terms::note_term;
use walk_names::Names;
use walk_state::Walk;

/// The terms of an INPUT are checked, in order: `frame` tells what the names of the called unit stand
/// for, and `entry` their terms at its entry, at the places of the frame's table.
pub fn check_input(
    walk: &mut Walk,
    card: u32,
    frame: &Names,
    entry: &[TermId],
    ids: &[TermId],
) -> Result<(), NoMemory>
    requires well { IsWalk walk.old }
    requires frame { IsNames walk.old.pool frame.now }
    requires entry { AllBelow (length walk.old.pool) entry.now }
    requires ids { AllBelow (length walk.old.pool) ids.now }
    requires known { are_known_terms frame.now.table entry.now (trees_in walk.old.pool ids.now) ≡ true }
    ensures on { Follows walk.old walk.new }
    ensures did { OnOk result (Did (moment walk.old)
        (meet (checks InputCheck card (map (stated walk.old.pool frame.now entry.now)
        (trees_in walk.old.pool ids.now)))) (moment walk.new) tt) }
{
    for id in ids {
        let Ok(goal) = note_term(walk.alloc, &mut walk.pool, frame, entry, *id) else {
            return Err(NoMemory);
        };
        walk.check(Kind::InputCheck, card, goal)?;
    }
    Ok(())
}

/// The terms of an OUTPUT are facts, in order; `frame` and `entry` are as for `check_input`.
pub fn take_output(
    walk: &mut Walk,
    frame: &Names,
    entry: &[TermId],
    ids: &[TermId],
) -> Result<(), NoMemory>
    requires well { IsWalk walk.old }
    requires frame { IsNames walk.old.pool frame.now }
    requires entry { AllBelow (length walk.old.pool) entry.now }
    requires ids { AllBelow (length walk.old.pool) ids.now }
    requires known { are_known_terms frame.now.table entry.now (trees_in walk.old.pool ids.now) ≡ true }
    ensures on { Follows walk.old walk.new }
    ensures did { OnOk result (Did (moment walk.old)
        (meet (takes (map (stated walk.old.pool frame.now entry.now)
        (trees_in walk.old.pool ids.now)))) (moment walk.new) tt) }
{
    for id in ids {
        let Ok(fact) = note_term(walk.alloc, &mut walk.pool, frame, entry, *id) else {
            return Err(NoMemory);
        };
        walk.take(fact)?;
    }
    Ok(())
}
