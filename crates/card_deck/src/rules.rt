// The rules that a card can break.
ghost use Rattle.std.specs.Prelude.{◌≡◌, length};
ghost use Rattle.std.specs.List.{list_all};
ghost use Rattle.fort_syntax.specs.CardRules.{is_printable, has_bad_byte, has_bad_label, lacks_initial, is_twentieth, is_bad_note, broken_by};
ghost use Rattle.card_deck.specs.Held.{before_of};

use crate::columns::{are_blank, is_plus, kind};
use crate::held::Held;
use crate::label::label;
use fort_syntax::{CardKind, Rule};

fn are_printable(bytes: &[u8]) -> bool
    ensures { result ≡ list_all is_printable bytes.now }
{
    for byte in bytes {
        if *byte < 32 || *byte > 126 {
            return false;
        }
    }
    true
}

fn has_bad_byte(card: &[u8]) -> bool
    requires { length card.now ≡ 72 }
    ensures { result ≡ has_bad_byte card.now }
{
    kind(card) != CardKind::CommentCard && !are_printable(card)
}

fn has_bad_label(card: &[u8]) -> bool
    requires { length card.now ≡ 72 }
    ensures { result ≡ has_bad_label card.now }
{
    match kind(card) {
        CardKind::InitialCard => label(&card[..5]).is_none(),
        CardKind::ContinuationCard => !are_blank(&card[..5]),
        CardKind::NoteCard => false,
        CardKind::CommentCard => false,
    }
}

fn lacks_initial(held: &Held, card: &[u8]) -> bool
    requires { length card.now ≡ 72 }
    ensures { result ≡ lacks_initial (before_of held.now) card.now }
{
    match (kind(card), held) {
        (CardKind::ContinuationCard, Held::Nothing) => true,
        (CardKind::ContinuationCard, Held::Note(_)) => true,
        _ => false,
    }
}

fn is_twentieth(held: &Held, card: &[u8]) -> bool
    requires { length card.now ≡ 72 }
    ensures { result ≡ is_twentieth (before_of held.now) card.now }
{
    match (kind(card), held) {
        (CardKind::ContinuationCard, Held::Statement(_, count)) => *count == 19,
        _ => false,
    }
}

fn is_bad_note(held: &Held, card: &[u8]) -> bool
    requires { length card.now ≡ 72 }
    ensures { result ≡ is_bad_note (before_of held.now) card.now }
{
    match (kind(card), held) {
        (CardKind::NoteCard, Held::Note(_)) => !is_plus(card) && card[2] != b' ',
        (CardKind::NoteCard, _) => is_plus(card) || card[2] != b' ',
        _ => false,
    }
}

/// The rule of the least number that a card breaks.
pub(crate) fn broken_by(held: &Held, card: &[u8]) -> Option<Rule>
    requires { length card.now ≡ 72 }
    ensures { result ≡ broken_by (before_of held.now) card.now }
{
    if has_bad_byte(card) {
        Some(Rule::BadByte)
    } else if has_bad_label(card) {
        Some(Rule::BadLabel)
    } else if lacks_initial(held, card) {
        Some(Rule::NoInitial)
    } else if is_twentieth(held, card) {
        Some(Rule::ManyCards)
    } else if is_bad_note(held, card) {
        Some(Rule::BadNoteCard)
    } else {
        None
    }
}
