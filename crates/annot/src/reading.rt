// The notes of a deck.
ghost use Rattle.std.specs.Prelude.{◌≡◌, [], All, IfOk, OnOk};
ghost use Rattle.formula.specs.Adding.{AreAdded, IsBodyIn};
ghost use Rattle.formula.specs.Pool.{Grows};
ghost use Rattle.fort_notes.specs.Remarks.{remarks_of};
ghost use Rattle.note_judging.specs.Items.{Tells};
ghost use Rattle.note_units.specs.Sorting.{AreIn, remarks_tree};

use crate::faults::with_lesser;
use crate::outcome::outcome;
use edge_io::Keys;
use formula::{Definitions, TermPool};
use fort_notes::Specs;
use fort_syntax::{Deck, Refusal};
use note_judging::judged_notes;
use note_places::missing_note;
use std::alloc::Global;

/// What the notes of a deck say all together, with terms as ids of the pool and definitions in
/// `definitions`, which has none before; or the first fault among them: of the first note that is at
/// fault and the first unit without INPUT or OUTPUT the one on the lesser card. No answer depends on
/// the keys.
pub fn notes(
    alloc: Global,
    keys: Keys,
    deck: &Deck,
    pool: &mut TermPool,
    definitions: &mut Definitions,
) -> Result<Specs, Refusal>
    requires { definitions.old ≡ [] }
    ensures tells { Tells (remarks_tree pool.new definitions.new) result (remarks_of deck.now) }
    ensures inside { IfOk result (λ s. AreIn pool.new s.units s.proofs) }
    ensures bodies { OnOk result (All (λ d. IsBodyIn pool.new d.body) definitions.new) }
    ensures added { OnOk result (AreAdded pool.new definitions.new) }
    ensures grows { Grows pool.old pool.new }
{
    let Ok(missing) = missing_note(alloc, keys, deck) else {
        return Err(Refusal::NoMemory);
    };
    match judged_notes(alloc, keys, deck, pool, definitions) {
        Ok(noted) => outcome(alloc, deck, noted, missing),
        Err(Refusal::Broken(fault)) => Err(Refusal::Broken(with_lesser(fault, missing))),
        Err(Refusal::NoMemory) => Err(Refusal::NoMemory),
    }
}
