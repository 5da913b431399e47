// Terms of notes that are facts.
ghost use Rattle.std.specs.Prelude.{◌≡◌, OnOk};
ghost use Rattle.fort_model.specs.Events.{takes};
ghost use Rattle.fort_model.specs.Seen.{meet};
ghost use Rattle.path_starts.specs.Starts.{IsStartOf, told_by};
ghost use Rattle.walk_state.specs.Moments.{Did, Follows, IsWalk, moment};

use edge_io::NoMemory;
use formula::TermId;
use note_terms::note_terms;
use walk_lists::take_all;
use walk_state::Walk;

/// Terms of a note are facts, in order. The terms of the entry are those that the walk's names stood
/// for there, at their places.
pub(crate) fn take_notes(walk: &mut Walk, entry: &[TermId], ids: &[TermId]) -> Result<(), NoMemory>
    requires well { IsWalk walk.old }
    requires terms { IsStartOf walk.old entry.now ids.now }
    ensures on { OnOk result (Follows walk.old walk.new) }
    ensures did { OnOk result (Did (moment walk.old)
        (meet (takes (told_by walk.old entry.now ids.now))) (moment walk.new) tt) }
{
    let Ok(facts) = note_terms(walk.alloc, &mut walk.pool, &walk.names, entry, ids) else {
        return Err(NoMemory);
    };
    let Ok(()) = take_all(walk, &facts) else {
        return Err(NoMemory);
    };
    Ok(())
}
