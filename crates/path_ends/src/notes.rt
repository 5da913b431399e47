// Checks of notes.
ghost use Rattle.std.specs.Prelude.{◌≡◌, length, map, OnOk};
ghost use Rattle.fort_model.specs.Events.{checks};
ghost use Rattle.fort_model.specs.Seen.{meet};
ghost use Rattle.path_ends.specs.Ends.{IsClockIn, clock_checks, clock_trees};
ghost use Rattle.path_starts.specs.Starts.{IsStartOf, told_by};
ghost use Rattle.walk_state.specs.Moments.{Did, Follows, IsWalk, moment};

use crate::clock::Clock;
use crate::falls::check_fall;
use edge_io::NoMemory;
use formula::TermId;
use fort_syntax::Kind;
use note_terms::{at_least_zero, note_terms};
use walk_lists::check_all;
use walk_state::Walk;

/// Terms of a note are checks of a kind at a card, in order. The terms of the entry are those that
/// the walk's names stood for there, at their places.
pub(crate) fn check_notes(
    walk: &mut Walk,
    entry: &[TermId],
    kind: Kind,
    card: u32,
    ids: &[TermId],
) -> Result<(), NoMemory>
    requires well { IsWalk walk.old }
    requires terms { IsStartOf walk.old entry.now ids.now }
    ensures on { OnOk result (Follows walk.old walk.new) }
    ensures did { OnOk result (Did (moment walk.old)
        (meet (checks kind card (told_by walk.old entry.now ids.now))) (moment walk.new) tt) }
{
    let Ok(goals) = note_terms(walk.alloc, &mut walk.pool, &walk.names, entry, ids) else {
        return Err(NoMemory);
    };
    let Ok(()) = check_all(walk, kind, card, &goals) else {
        return Err(NoMemory);
    };
    Ok(())
}

/// No part of a clock is negative; and the clock has fallen.
pub(crate) fn check_clock(
    walk: &mut Walk,
    entry: &[TermId],
    card: u32,
    clock: &Option<Clock>,
    ids: &[TermId],
) -> Result<(), NoMemory>
    requires well { IsWalk walk.old }
    requires terms { IsStartOf walk.old entry.now ids.now }
    requires clock { IsClockIn (length walk.old.pool) clock.now }
    ensures on { OnOk result (Follows walk.old walk.new) }
    ensures did { OnOk result (Did (moment walk.old)
        (meet (clock_checks card (clock_trees walk.old.pool clock.now)
        (told_by walk.old entry.now ids.now))) (moment walk.new) tt) }
{
    let Ok(parts) = note_terms(walk.alloc, &mut walk.pool, &walk.names, entry, ids) else {
        return Err(NoMemory);
    };
    let Ok(goals) = at_least_zero(walk.alloc, &mut walk.pool, &parts) else {
        return Err(NoMemory);
    };
    let Ok(()) = check_all(walk, Kind::ClockCheck, card, &goals) else {
        return Err(NoMemory);
    };
    let Ok(()) = check_fall(walk, card, clock, &parts) else {
        return Err(NoMemory);
    };
    Ok(())
}
