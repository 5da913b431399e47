// What the notes of a deck say.
ghost use Rattle.std.specs.Prelude.{◌≡◌, Err, IfOk};
ghost use Rattle.fort_syntax.specs.WellFormed.{IsWellFormed};
ghost use Rattle.fort_syntax.specs.declared.dialect.Dialect.{Dialect};
ghost use Rattle.fort_syntax.specs.declared.refusal.Fault.{Fault};
ghost use Rattle.fort_syntax.specs.declared.refusal.Refusal.TheVariants.{Broken};
ghost use Rattle.fort_notes.specs.Remarks.{remarks_of};
ghost use Rattle.deck_judging.specs.Stages.{AreNotesOf};

use crate::notes_found::Noted;
use annot::notes;
use edge_io::Keys;
use formula::{Definitions, TermPool};
use fort_syntax::{Deck, Refusal};
use std::alloc::Global;

/// What the notes of a deck say, or their first fault.
pub(crate) fn noted(alloc: Global, keys: Keys, deck: &Deck) -> Result<Noted, Refusal>
    requires { (dialect : Dialect) × IsWellFormed dialect deck.now }
    ensures notes { IfOk result (λ n. AreNotesOf deck.now n.pool n.definitions n.specs) }
    ensures broken { (f : Fault) → result ≡ Err (Broken f) → remarks_of deck.now ≡ Err f }
{
    let mut pool = TermPool::new(alloc, keys);
    let mut definitions = Definitions::new(alloc, keys);
    match notes(alloc, keys, deck, &mut pool, &mut definitions) {
        Ok(specs) => Ok(Noted {
            pool,
            definitions,
            specs,
        }),
        Err(refusal) => Err(refusal),
    }
}
