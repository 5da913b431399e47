// The conditions of a text, or its first fault.
ghost use Rattle.std.specs.Prelude.{◌≡◌, Err, IfOk};
ghost use Rattle.fort_syntax.specs.WellFormed.{IsWellFormed};
ghost use Rattle.fort_syntax.specs.declared.refusal.Fault.{Fault};
ghost use Rattle.fort_syntax.specs.declared.refusal.Refusal.TheVariants.{Broken};
ghost use Rattle.judging.specs.Judgement.{IsDeckIn, IsFirstFaultIn, IsTextFaultIn};
ghost use Rattle.deck_judging.specs.Judged.{IsJudgedIn};
ghost use Rattle.deck_judging.specs.Stages.{AreShort, IsDeckFault, IsFoundAs};

use crate::Judged;
use crate::deck::judged_deck;
use crate::findings::judged_as;
use card_deck::cards;
use edge_io::Keys;
use fort_syntax::{Deck, Dialect, Refusal};
use std::alloc::Global;
use unit_decl::units;

/// The deck of some bytes, or their first fault by the rules on cards, statements and units.
#[tactic(auto, using(crate::proofs::CardsAscend::cards_ascend))]
fn deck_of(alloc: Global, keys: Keys, dialect: Dialect, bytes: &[u8]) -> Result<Deck, Refusal>
    ensures deck { IfOk result (λ deck. IsDeckIn dialect bytes.now deck) }
    ensures well_formed { IfOk result (λ deck. IsWellFormed dialect deck) }
    ensures broken { (f : Fault) → result ≡ Err (Broken f) → IsTextFaultIn dialect bytes.now f }
{
    match cards(alloc, bytes) {
        Ok(cards) => units(alloc, keys, dialect, cards.as_slice()),
        Err(refusal) => Err(refusal),
    }
}

/// What is found of a deck that some bytes are, or its first fault.
fn judged_text(alloc: Global, keys: Keys, dialect: Dialect, deck: Deck) -> Result<Judged, Refusal>
    requires well { IsWellFormed dialect deck }
    requires short { AreShort deck.units }
    ensures judged { IfOk result (λ j. IsFoundAs dialect deck j) }
    ensures broken { (f : Fault) → result ≡ Err (Broken f) → IsDeckFault dialect deck f }
{
    match judged_deck(alloc, keys, dialect, &deck) {
        Ok(findings) => Ok(judged_as(deck, findings)),
        Err(refusal) => Err(refusal),
    }
}

/// What is found of some bytes that are accepted in a dialect: of a deck that keeps all rules. The
/// conditions are those of all paths of its units, in order.
///
/// An error says the first fault: the stages are those of cards, of the texts of statements, of
/// units, of notes, of calls, of smashed names, of ranges and clocks, of the flow, and of sizes; each
/// is judged where all rules of those before it are kept. Or it says that memory was wanted and not
/// had. No answer depends on the keys.
pub fn judged(alloc: Global, keys: Keys, dialect: Dialect, bytes: &[u8]) -> Result<Judged, Refusal>
    ensures judged { IfOk result (λ j. IsJudgedIn dialect bytes.now j) }
    ensures broken { (f : Fault) → result ≡ Err (Broken f) → IsFirstFaultIn dialect bytes.now f }
{
    match deck_of(alloc, keys, dialect, bytes) {
        Ok(deck) => judged_text(alloc, keys, dialect, deck),
        Err(refusal) => Err(refusal),
    }
}
