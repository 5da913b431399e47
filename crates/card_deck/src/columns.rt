// The columns of cards.
ghost use Rattle.std.specs.Prelude.{◌≡◌, length, take};
ghost use Rattle.std.specs.List.{list_all};
ghost use Rattle.fort_syntax.specs.Cards.{columns, without_return, is_c, is_blank, is_plus, kind_of};

use fort_syntax::CardKind;

/// The bytes without a carriage return at their end.
pub(crate) fn without_return(bytes: &[u8]) -> &[u8]
    ensures { result.now ≡ without_return bytes.now }
{
    let len = bytes.len();
    if len > 0 && bytes[len - 1] == b'\r' {
        &bytes[..len - 1]
    } else {
        bytes
    }
}

/// Columns 1 to 72 of a card of these bytes.
pub(crate) fn columns(bytes: &[u8]) -> [u8; 72]
    ensures { result ≡ columns bytes.now }
{
    let mut held = [b' '; 72];
    let len = bytes.len().min(72);
    held[..len].copy_from_slice(&bytes[..len]);
    held
}

fn is_c(byte: u8) -> bool
    ensures { result ≡ is_c byte }
{
    byte == b'C' || byte == b'c'
}

/// Whether there are only blanks.
pub(crate) fn are_blank(bytes: &[u8]) -> bool
    ensures { result ≡ list_all is_blank bytes.now }
{
    for byte in bytes {
        if *byte != b' ' {
            return false;
        }
    }
    true
}

/// Whether a card of these bytes has nothing but blanks in columns 1 to 72.
#[tactic(auto, using(crate::proofs::Blanks::short_take))]
pub(crate) fn begins_blank(bytes: &[u8]) -> bool
    ensures { result ≡ list_all is_blank (take 72 bytes.now) }
{
    if bytes.len() < 72 {
        return are_blank(bytes);
    }
    are_blank(&bytes[..72])
}

/// Whether a note card continues a note.
pub(crate) fn is_plus(card: &[u8]) -> bool
    requires { length card.now ≡ 72 }
    ensures { result ≡ is_plus card.now }
{
    card[2] == b'+'
}

/// What a card is.
pub(crate) fn kind(card: &[u8]) -> CardKind
    requires { length card.now ≡ 72 }
    ensures { result ≡ kind_of card.now }
{
    if is_c(card[0]) && card[1] == b'$' {
        CardKind::NoteCard
    } else if is_c(card[0]) || card[0] == b'*' || are_blank(card) {
        CardKind::CommentCard
    } else if card[5] == b' ' || card[5] == b'0' {
        CardKind::InitialCard
    } else {
        CardKind::ContinuationCard
    }
}
