// What the next card may continue.
ghost use Rattle.std.specs.Prelude.{◌≡◌, ◌+◌, ◌≤◌, ◌++◌, [], List, ℕ, OnOk, IfOk};
ghost use Rattle.card_deck.specs.Held.{finished};

use edge_io::{List, NoMemory};
use fort_syntax::Entry;

/// The first card, the label and the text so far of a statement or note that may go on.
#[derive(Drop)]
pub(crate) struct Begun {
    pub card: u32,
    pub label: u32,
    pub text: Vec<u8>,
}

/// What the next card may continue: nothing, a statement with so many continuation cards, or a note.
#[derive(Drop)]
pub(crate) enum Held {
    Nothing,
    Statement(Begun, u32),
    Note(Begun),
}

/// Puts what was held behind the entries.
pub(crate) fn finish(done: &mut Vec<Entry>, held: Held) -> Result<(), NoMemory>
    ensures { OnOk result (done.new.items ≡ done.old.items ++ finished held []) }
{
    let entry = match held {
        Held::Nothing => return Ok(()),
        Held::Statement(Begun { card, label, text }, _) => Entry::Statement {
            card,
            label,
            text: List::from_vec(text),
        },
        Held::Note(Begun { card, text, .. }) => Entry::Note {
            card,
            text: List::from_vec(text),
        },
    };
    if done.push(entry).is_err() {
        return Err(NoMemory);
    }
    Ok(())
}
