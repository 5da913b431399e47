// One card more.
ghost use Rattle.std.specs.Prelude.{◌≡◌, ◌≤◌, ◌++◌, ◌∷◌, ℕ, List, None, Some, length, IfOk};
ghost use Rattle.fort_syntax.specs.Cards.{Card, begun_by, kind_of, columns, without_return};
ghost use Rattle.fort_syntax.specs.CardRules.{behind, commented, broken_by};
ghost use Rattle.fort_syntax.specs.declared.cards.CardKind.TheVariants.{CommentCard};
ghost use Rattle.fort_syntax.specs.declared.refusal.Fault.{Fault};
ghost use Rattle.card_deck.specs.Held.{finished, before_of, count_of};

use crate::begin::{longer_note, longer_statement, note, statement};
use crate::columns::{begins_blank, columns, is_plus, kind, without_return};
use crate::held::{Held, finish};
use crate::rules::broken_by;
use edge_io::NoMemory;
use fort_syntax::{CardKind, Entry, Fault, Refusal};
use std::alloc::Global;

/// What is held behind a comment card: a note is done.
fn comment(held: Held, done: &mut Vec<Entry>) -> Result<Held, NoMemory>
    requires fits { count_of held ≤ 19 }
    ensures entries { IfOk result (λ h. (card : Card) (rest : List Card)
        → kind_of card ≡ CommentCard → done.new.items ++ finished h rest
        ≡ done.old.items ++ finished held (card ∷ rest)) }
    ensures before { IfOk result (λ h. before_of h ≡ commented (before_of held)) }
    ensures fits { IfOk result (λ h. count_of h ≤ 19) }
{
    match held {
        Held::Note(begun) => {
            finish(done, Held::Note(begun))?;
            Ok(Held::Nothing)
        }
        other => Ok(other),
    }
}

/// What is held behind a card that breaks no rule; what ends there is put behind the entries.
fn go_on(
    alloc: Global,
    number: u32,
    held: Held,
    done: &mut Vec<Entry>,
    card: &[u8],
) -> Result<Held, NoMemory>
    requires long { length card.now ≡ 72 }
    requires fits { count_of held ≤ 19 }
    requires clean { broken_by (before_of held) card.now ≡ None }
    ensures entries { IfOk result (λ h. (rest : List Card) → done.new.items ++ finished h rest
        ≡ done.old.items ++ finished held (card.now ∷ rest) ++ begun_by (kind_of card.now)
        number card.now rest) }
    ensures before { IfOk result (λ h. before_of h ≡ behind (kind_of card.now) (before_of held)) }
    ensures fits { IfOk result (λ h. count_of h ≤ 19) }
{
    match kind(card) {
        CardKind::CommentCard => comment(held, done),
        CardKind::ContinuationCard => longer_statement(held, card),
        CardKind::InitialCard => {
            finish(done, held)?;
            statement(alloc, number, card)
        }
        CardKind::NoteCard => {
            if is_plus(card) {
                return longer_note(held, card);
            }
            finish(done, held)?;
            note(alloc, number, card)
        }
    }
}

/// What is held behind a card of these bytes, if it breaks no rule. A card of blanks is not looked at column by column.
pub(crate) fn take(
    alloc: Global,
    number: u32,
    held: Held,
    done: &mut Vec<Entry>,
    bytes: &[u8],
) -> Result<Held, Refusal>
    requires fits { count_of held ≤ 19 }
    ensures clean { let card = columns (without_return bytes.now) in IfOk result
        (λ h. broken_by (before_of held) card ≡ None) }
    ensures entries { let card = columns (without_return bytes.now) in IfOk result
        (λ h. (rest : List Card) → done.new.items ++ finished h rest ≡ done.old.items ++
        finished held (card ∷ rest) ++ begun_by (kind_of card) number card rest) }
    ensures before { let card = columns (without_return bytes.now) in IfOk result
        (λ h. before_of h ≡ behind (kind_of card) (before_of held)) }
    ensures fits { IfOk result (λ h. count_of h ≤ 19) }
    ensures broken { let card = columns (without_return bytes.now) in (f : Fault)
        → result ≡ Err (Refusal.Broken f) → (broken_by (before_of held) card ≡ Some f.rule)
        × (f.card ≡ number) }
{
    let bytes = without_return(bytes);
    if begins_blank(bytes) {
        let Ok(held) = comment(held, done) else {
            return Err(Refusal::NoMemory);
        };
        return Ok(held);
    }
    let card = columns(bytes);
    match broken_by(&held, &card) {
        Some(rule) => Err(Refusal::Broken(Fault { rule, card: number })),
        None => {
            let Ok(held) = go_on(alloc, number, held, done, &card) else {
                return Err(Refusal::NoMemory);
            };
            Ok(held)
        }
    }
}
