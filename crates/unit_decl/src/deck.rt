// The deck that statements and notes make.
ghost use Rattle.std.specs.Prelude.{◌≡◌, true, Err, IfOk};
ghost use Rattle.deck_laws.specs.Ascent.{entries_ascend_above};
ghost use Rattle.fort_syntax.specs.WellFormed.{IsWellFormed};
ghost use Rattle.fort_syntax.specs.declared.refusal.Fault.{Fault};
ghost use Rattle.fort_syntax.specs.declared.refusal.Refusal.TheVariants.{Broken};
ghost use Rattle.deck_entries.specs.Decks.{IsDeckOf, IsFirstFault};

use crate::deck_faults::first_fault;
use crate::deck_units::units_of;
use deck_entries::read;
use edge_io::{Keys, List};
use fort_syntax::{Deck, Dialect, Entry, Refusal};
use std::alloc::Global;

// The deck, or the first fault.
#[tactic(auto, using(deck_entries::proofs::EntriesRead::fault_found))]
fn deck_or_fault(
    alloc: Global,
    keys: Keys,
    dialect: Dialect,
    cards: &[Entry],
) -> Result<Deck, Refusal>
    requires { entries_ascend_above 0 cards.now ≡ true }
    ensures deck { IfOk result (λ deck. IsDeckOf dialect cards.now deck) }
    ensures broken { (f : Fault) → result ≡ Err (Broken f) → IsFirstFault dialect cards.now f }
{
    let reading = match read(alloc, dialect, cards) {
        Ok(reading) => reading,
        Err(refusal) => return Err(refusal),
    };
    let Ok(fault) = first_fault(alloc, keys, dialect, reading.lines.as_slice()) else {
        return Err(Refusal::NoMemory);
    };
    if let Some(fault) = fault {
        return Err(Refusal::Broken(fault));
    }
    let Ok(units) = units_of(alloc, keys, reading.lines.as_slice()) else {
        return Err(Refusal::NoMemory);
    };
    Ok(Deck {
        units,
        notes: List::from_vec(reading.notes),
    })
}

/// The deck that statements and notes on ascending cards make, or their first fault. The deck is well formed.
///
/// An error says the fault of the first statement whose text spells none, or else the first fault by
/// the rules on units: of the least stage, there on the least card, and there of the rule of the
/// least number; or that memory was wanted and not had. No answer depends on the keys.
pub fn units(alloc: Global, keys: Keys, dialect: Dialect, cards: &[Entry]) -> Result<Deck, Refusal>
    requires { entries_ascend_above 0 cards.now ≡ true }
    ensures deck { IfOk result (λ deck. IsDeckOf dialect cards.now deck) }
    ensures well_formed { IfOk result (λ deck. IsWellFormed dialect deck) }
    ensures broken { (f : Fault) → result ≡ Err (Broken f) → IsFirstFault dialect cards.now f }
{
    deck_or_fault(alloc, keys, dialect, cards)
}
