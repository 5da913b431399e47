// All notes.
ghost use Rattle.std.specs.Prelude.{◌≡◌, [], IfOk, OnOk};
ghost use Rattle.formula.specs.Adding.{AreAdded};
ghost use Rattle.formula.specs.Pool.{Grows};
ghost use Rattle.fort_notes.specs.Judging.{judged, judged_from};
ghost use Rattle.note_judging.specs.Items.{AreNotedIn, IsSeated, Tells, definitions_among, judged_trees, refusal_by};

use crate::Noted;
use crate::gathering::Gathered;
use crate::seating::{Seat, first_seat, leave};
use crate::stepping::step;
use edge_io::Keys;
use formula::{Definitions, TermPool};
use fort_syntax::{Deck, Fault, Placed, Refusal};
use note_steps::{Refused, Taken};
use std::alloc::Global;

// The refusal of a note on a card.
fn refusal_of(why: Refused, card: u32) -> Refusal
    ensures { result ≡ refusal_by card why }
{
    match why {
        Refused::Broken(rule) => Refusal::Broken(Fault { rule, card }),
        Refused::Memory => Refusal::NoMemory,
    }
}

// Judges the notes of a deck, one after another.
fn judge_all(
    alloc: Global,
    seat: &mut Seat<'_>,
    pool: &mut TermPool,
    definitions: &mut Definitions,
    notes: &[Placed],
) -> Result<Vec<Noted>, Refusal>
    requires seated { IsSeated seat.old.sites.deck.now seat.old }
    requires empty { definitions.old ≡ [] }
    ensures tells { Tells (λ noted. judged_trees pool.new noted.items) result
        (judged_from seat.old.sites.deck.now [] notes.now) }
    ensures inside { IfOk result (λ noted. AreNotedIn pool.new noted.items) }
    ensures defined { IfOk result (λ noted. definitions.new ≡ definitions_among noted.items) }
    ensures added { OnOk result (AreAdded pool.new definitions.new) }
    ensures grows { Grows pool.old pool.new }
{
    let mut gathered = Gathered {
        taken: Taken::new(alloc, pool.keys()),
        items: Vec::new(alloc),
    };
    for note in notes {
        match step(seat, pool, definitions, &mut gathered, note) {
            Ok(()) => {}
            Err(why) => return Err(refusal_of(why, note.card)),
        }
    }
    Ok(gathered.items)
}

/// The notes of a deck, judged one after another, with their terms as ids of the pool; or the first
/// note that is at fault, with the rule that it breaks. The definitions of notes are then in
/// `definitions`, in the order of the notes. No answer depends on the keys.
pub fn judged_notes(
    alloc: Global,
    keys: Keys,
    deck: &Deck,
    pool: &mut TermPool,
    definitions: &mut Definitions,
) -> Result<Vec<Noted>, Refusal>
    requires { definitions.old ≡ [] }
    ensures tells { Tells (λ notes. judged_trees pool.new notes.items) result (judged deck.now) }
    ensures inside { IfOk result (λ notes. AreNotedIn pool.new notes.items) }
    ensures defined { IfOk result (λ notes. definitions.new ≡ definitions_among notes.items) }
    ensures added { OnOk result (AreAdded pool.new definitions.new) }
    ensures grows { Grows pool.old pool.new }
{
    let Ok(mut seat) = first_seat(alloc, keys, deck) else {
        return Err(Refusal::NoMemory);
    };
    let all = judge_all(alloc, &mut seat, pool, definitions, deck.notes.as_slice());
    leave(seat);
    all
}
