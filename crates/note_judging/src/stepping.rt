// One note more.
ghost use Rattle.std.specs.Prelude.{◌≡◌, OnOk};
ghost use Rattle.formula.specs.Pool.{Grows};
ghost use Rattle.note_judging.specs.Items.{IsSeated, Holds, Steps, judged_trees};

use crate::gathering::{Gathered, gather};
use crate::seating::{Seat, sit};
use formula::{Definitions, TermPool};
use fort_syntax::Placed;
use note_steps::{Refused, judged};

// Judges a note, and puts it behind the others where it is not at fault.
pub(crate) fn step(
    seat: &mut Seat<'_>,
    pool: &mut TermPool,
    definitions: &mut Definitions,
    gathered: &mut Gathered,
    note: &Placed,
) -> Result<(), Refused>
    requires seated { IsSeated seat.old.sites.deck.now seat.old }
    ensures seated { OnOk result (IsSeated seat.old.sites.deck.now seat.new) }
    ensures grows { Grows pool.old pool.new }
    ensures holds { OnOk result (Holds pool.old definitions.old gathered.old.taken
        gathered.old.items.items → Holds pool.new definitions.new gathered.new.taken
        gathered.new.items.items) }
    ensures steps { Holds pool.old definitions.old gathered.old.taken gathered.old.items.items
        → Steps seat.old.sites.deck.now (judged_trees pool.old gathered.old.items.items) note.now
        (judged_trees pool.new gathered.new.items.items) result }
{
    let Ok(()) = sit(pool.keys(), seat, note.unit) else {
        return Err(Refused::Memory);
    };
    let form = match judged(&seat.sites, pool, definitions, &gathered.taken, note) {
        Ok(form) => form,
        Err(why) => return Err(why),
    };
    let Ok(()) = gather(gathered, note, form) else {
        return Err(Refused::Memory);
    };
    Ok(())
}
