// What begins on a card, and what goes on.
ghost use Rattle.std.specs.Prelude.{◌≡◌, ◌+◌, ◌≤◌, ◌<◌, ◌++◌, ◌∷◌, ℕ, List, true, false, length, IfOk};
ghost use Rattle.fort_syntax.specs.Cards.{Card, label_field, is_label, is_plus, begun_by, kind_of};
ghost use Rattle.fort_syntax.specs.CardRules.{nothing, note, behind};
ghost use Rattle.fort_syntax.specs.CardRules as rules;
ghost use Rattle.fort_syntax.specs.declared.cards.CardKind.TheVariants.{InitialCard, NoteCard, ContinuationCard};
ghost use Rattle.formula.specs.Atoms.{spelled};
ghost use Rattle.card_deck.specs.Held.{finished, before_of, count_of};

use crate::held::{Begun, Held};
use crate::label::label;
use crate::text::{put, put_dense};
use edge_io::NoMemory;
use std::alloc::Global;

fn label_on(card: &[u8]) -> u32
    requires long { length card.now ≡ 72 }
    requires good { is_label (label_field card.now) ≡ true }
    ensures { result ≡ spelled (label_field card.now) }
{
    match label(&card[..5]) {
        Some(number) => number,
        None => 0,
    }
}

/// The statement that begins on an initial card.
pub(crate) fn statement(alloc: Global, number: u32, card: &[u8]) -> Result<Held, NoMemory>
    requires long { length card.now ≡ 72 }
    requires good { is_label (label_field card.now) ≡ true }
    ensures entries { IfOk result (λ h. (rest : List Card) → finished h rest
        ≡ begun_by InitialCard number card.now rest) }
    ensures before { IfOk result (λ h. before_of h ≡ rules.statement 0) }
    ensures fits { IfOk result (λ h. count_of h ≡ 0) }
{
    let label = label_on(card);
    let mut text = Vec::new(alloc);
    put_dense(&mut text, &card[6..])?;
    Ok(Held::Statement(
        Begun {
            card: number,
            label,
            text,
        },
        0,
    ))
}

/// The note that begins on a note card.
pub(crate) fn note(alloc: Global, number: u32, card: &[u8]) -> Result<Held, NoMemory>
    requires long { length card.now ≡ 72 }
    requires first { is_plus card.now ≡ false }
    ensures entries { IfOk result (λ h. (rest : List Card) → finished h rest
        ≡ begun_by NoteCard number card.now rest) }
    ensures before { IfOk result (λ h. before_of h ≡ note) }
    ensures fits { IfOk result (λ h. count_of h ≡ 0) }
{
    let mut text = Vec::new(alloc);
    put(&mut text, &card[3..])?;
    Ok(Held::Note(Begun {
        card: number,
        label: 0,
        text,
    }))
}

/// A statement with the text of a continuation card.
pub(crate) fn longer_statement(held: Held, card: &[u8]) -> Result<Held, NoMemory>
    requires long { length card.now ≡ 72 }
    requires goes_on { rules.no_statement (before_of held) ≡ false }
    requires fits { count_of held < 19 }
    requires kind { kind_of card.now ≡ ContinuationCard }
    ensures entries { IfOk result (λ h. (rest : List Card) → finished h rest ≡ finished held
        (card.now ∷ rest)) }
    ensures before { IfOk result (λ h. before_of h ≡ behind ContinuationCard (before_of held)) }
    ensures fits { IfOk result (λ h. count_of h ≤ 19) }
{
    match held {
        Held::Statement(mut begun, count) => {
            put_dense(&mut begun.text, &card[6..])?;
            Ok(Held::Statement(begun, count + 1))
        }
        other => Ok(other),
    }
}

/// A note with the text of a note card that continues it.
pub(crate) fn longer_note(held: Held, card: &[u8]) -> Result<Held, NoMemory>
    requires long { length card.now ≡ 72 }
    requires goes_on { rules.no_note (before_of held) ≡ false }
    requires more { is_plus card.now ≡ true }
    requires kind { kind_of card.now ≡ NoteCard }
    ensures entries { IfOk result (λ h. (rest : List Card) → finished h rest ≡ finished held
        (card.now ∷ rest)) }
    ensures before { IfOk result (λ h. before_of h ≡ note) }
    ensures fits { IfOk result (λ h. count_of h ≡ 0) }
{
    match held {
        Held::Note(mut begun) => {
            if begun.text.push(b' ').is_err() {
                return Err(NoMemory);
            }
            put(&mut begun.text, &card[3..])?;
            Ok(Held::Note(begun))
        }
        other => Ok(other),
    }
}
