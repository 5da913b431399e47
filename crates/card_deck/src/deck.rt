// The statements and notes of a deck.
ghost use Rattle.std.specs.Prelude.{◌≡◌, None, Some, IfOk, OnOk, Err};
ghost use Rattle.fort_syntax.specs.Cards.{entries_of};
ghost use Rattle.fort_syntax.specs.CardRules.{card_fault};
ghost use Rattle.fort_syntax.specs.declared.refusal.Fault.{Fault};

use crate::held::{Held, finish};
use crate::reading::{Reading, read_byte, read_last};
use edge_io::List;
use fort_syntax::{Cards, Fault, Refusal, Rule};
use std::alloc::Global;

/// How many bytes a deck may have.
const LIMIT: usize = 1_048_576;

/// The statements and notes of a deck, in the order of their cards.
///
/// An error says the first fault of the cards, the one on the least card and there of the rule of
/// the least number, or that memory was wanted and not had.
pub fn cards(alloc: Global, bytes: &[u8]) -> Result<Cards, Refusal>
    ensures entries { IfOk result (λ cards. cards ≡ entries_of bytes.now) }
    ensures clean { OnOk result (card_fault bytes.now ≡ None) }
    ensures broken { (f : Fault) → result ≡ Err (Refusal.Broken f) → card_fault bytes.now ≡ Some f }
{
    if bytes.len() > LIMIT {
        return Err(Refusal::Broken(Fault {
            rule: Rule::TooLong,
            card: 1,
        }));
    }
    let mut reading = Reading {
        number: 1,
        held: Held::Nothing,
        done: Vec::new(alloc),
    };
    let mut start = 0;
    for at in 0..bytes.len() {
        start = read_byte(alloc, &mut reading, bytes, start, at)?;
    }
    read_last(alloc, &mut reading, &bytes[start..])?;
    let Reading { held, mut done, .. } = reading;
    let Ok(()) = finish(&mut done, held) else {
        return Err(Refusal::NoMemory);
    };
    Ok(List::from_vec(done))
}
