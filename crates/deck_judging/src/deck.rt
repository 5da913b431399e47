// The conditions of a deck, or its first fault.
ghost use Rattle.std.specs.Prelude.{◌≡◌, Err, IfOk};
ghost use Rattle.fort_syntax.specs.WellFormed.{IsWellFormed};
ghost use Rattle.fort_syntax.specs.declared.refusal.Fault.{Fault};
ghost use Rattle.fort_syntax.specs.declared.refusal.Refusal.TheVariants.{Broken};
ghost use Rattle.alias_rules.specs.Stages.{KeepCalls};
ghost use Rattle.deck_judging.specs.Calls.{AreCallsKnown};
ghost use Rattle.deck_judging.specs.Stages.{AreConditionsOfDeck, AreNotesOf, AreShort, HaveTable, IsDeckFault, KeepSmashing};

use crate::findings::Findings;
use crate::noted::noted;
use crate::notes_found::Noted;
use crate::scene::{Found, conditions_of_scene};
use crate::smashed::{Smashing, smashed};
use call_sites::DeckBook;
use edge_io::{Keys, List};
use fort_notes::Specs;
use fort_syntax::{Deck, Dialect, Refusal};
use name_tables::NameSet;
use path_scene::Scene;
use std::alloc::Global;

/// What the stages before that of ranges tell of a deck.
#[derive(Drop)]
struct Known {
    dialect: Dialect,
    noted: Noted,
    order: List<u32>,
    smashes: Vec<NameSet>,
}

/// The conditions of a deck of which this is known, with tables of its names; or its first fault in
/// ranges or in a later stage.
fn judged_books(
    alloc: Global,
    keys: Keys,
    deck: &Deck,
    known: Known,
    books: &DeckBook,
) -> Result<Findings, Refusal>
    requires well { IsWellFormed known.dialect deck.now }
    requires short { AreShort deck.now.units }
    requires notes { AreNotesOf deck.now known.noted.pool known.noted.definitions known.noted.specs }
    requires calls { KeepCalls deck.now.units }
    requires known_calls { AreCallsKnown deck.now.units known.order }
    requires table { HaveTable deck.now.units known.smashes.items }
    requires smashing { KeepSmashing deck.now.units known.smashes.items }
    requires books { books.now.units.now ≡ deck.now.units }
    ensures judged { IfOk result (λ j. AreConditionsOfDeck known.dialect deck.now j) }
    ensures broken { (f : Fault) → result ≡ Err (Broken f) → IsDeckFault known.dialect deck.now f }
{
    let Known {
        dialect,
        noted,
        order,
        smashes,
    } = known;
    let Noted {
        pool,
        definitions,
        specs,
    } = noted;
    let scene = Scene {
        dialect,
        bound: specs.bound,
        books,
        notes: specs.units.as_slice(),
        smashes: smashes.as_slice(),
    };
    let found = conditions_of_scene(alloc, keys, pool, &scene);
    let Scene {
        dialect: _dialect,
        bound: _bound,
        books: _books,
        notes: _notes,
        smashes: _smashes,
    } = scene;
    let Specs {
        bound,
        units: _units,
        runs,
        tries,
        proofs: _proofs,
    } = specs;
    match found {
        Ok(
            Found {
                pool,
                conditions,
                paths,
            },
        ) => Ok(Findings {
            pool,
            definitions,
            conditions,
            units: deck.units.as_slice().len(),
            paths,
            bound,
            order,
            runs,
            tries,
        }),
        Err(refusal) => Err(refusal),
    }
}

/// The conditions of a deck of which this is known; or its first fault in ranges or in a later stage.
fn judged_known(alloc: Global, keys: Keys, deck: &Deck, known: Known) -> Result<Findings, Refusal>
    requires well { IsWellFormed known.dialect deck.now }
    requires short { AreShort deck.now.units }
    requires notes { AreNotesOf deck.now known.noted.pool known.noted.definitions known.noted.specs }
    requires calls { KeepCalls deck.now.units }
    requires known_calls { AreCallsKnown deck.now.units known.order }
    requires table { HaveTable deck.now.units known.smashes.items }
    requires smashing { KeepSmashing deck.now.units known.smashes.items }
    ensures judged { IfOk result (λ j. AreConditionsOfDeck known.dialect deck.now j) }
    ensures broken { (f : Fault) → result ≡ Err (Broken f) → IsDeckFault known.dialect deck.now f }
{
    let Ok(books) = DeckBook::new(alloc, keys, deck.units.as_slice()) else {
        return Err(Refusal::NoMemory);
    };
    judged_books(alloc, keys, deck, known, &books)
}

/// The conditions of a deck whose notes say this; or its first fault in calls or in a later stage.
fn judged_notes(
    alloc: Global,
    keys: Keys,
    dialect: Dialect,
    deck: &Deck,
    noted: Noted,
) -> Result<Findings, Refusal>
    requires well { IsWellFormed dialect deck.now }
    requires short { AreShort deck.now.units }
    requires notes { AreNotesOf deck.now noted.pool noted.definitions noted.specs }
    ensures judged { IfOk result (λ j. AreConditionsOfDeck dialect deck.now j) }
    ensures broken { (f : Fault) → result ≡ Err (Broken f) → IsDeckFault dialect deck.now f }
{
    match smashed(alloc, keys, deck) {
        Ok(Smashing { order, rows }) => {
            let known = Known {
                dialect,
                noted,
                order,
                smashes: rows,
            };
            judged_known(alloc, keys, deck, known)
        }
        Err(refusal) => Err(refusal),
    }
}

/// The conditions of a deck that is well formed and whose units are not too long, or its first fault.
pub(crate) fn judged_deck(
    alloc: Global,
    keys: Keys,
    dialect: Dialect,
    deck: &Deck,
) -> Result<Findings, Refusal>
    requires well { IsWellFormed dialect deck.now }
    requires short { AreShort deck.now.units }
    ensures judged { IfOk result (λ j. AreConditionsOfDeck dialect deck.now j) }
    ensures broken { (f : Fault) → result ≡ Err (Broken f) → IsDeckFault dialect deck.now f }
{
    match noted(alloc, keys, deck) {
        Ok(found) => judged_notes(alloc, keys, dialect, deck, found),
        Err(refusal) => Err(refusal),
    }
}
