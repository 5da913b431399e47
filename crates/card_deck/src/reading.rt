// The state of reading.
ghost use Rattle.std.specs.Prelude.{◌≡◌, ◌≤◌, ◌<◌, ◌+◌, ◌^◌, ◌∷◌, ℕ, List, [], length, drop, Err, Some, OnOk, IfOk};
ghost use Rattle.fort_syntax.specs.Cards.{Card, columns, without_return, cards_from, last_card};
ghost use Rattle.fort_syntax.specs.declared.refusal.Fault.{Fault};
ghost use Rattle.card_deck.specs.Reading.{entries_with, fault_with, part};
ghost use Rattle.card_deck.specs.Held.{count_of};

use crate::advance::take;
use crate::held::Held;
use fort_syntax::{Entry, Refusal};
use std::alloc::Global;
use std::mem::replace;

/// The number of the next card, what it may continue, and the entries that are done.
#[derive(Drop)]
pub(crate) struct Reading {
    pub number: u32,
    pub held: Held,
    pub done: Vec<Entry>,
}

/// Reads a card of these bytes.
fn read(alloc: Global, reading: &mut Reading, bytes: &[u8]) -> Result<(), Refusal>
    requires fits { count_of reading.old.held ≤ 19 }
    requires room { reading.old.number + 1 < 2 ^ 32 }
    ensures entries { let card = columns (without_return bytes.now) in OnOk result
        ((rest : List Card) → entries_with reading.new rest ≡ entries_with reading.old
        (card ∷ rest)) }
    ensures faults { let card = columns (without_return bytes.now) in OnOk result
        ((rest : List Card) → fault_with reading.new rest ≡ fault_with reading.old (card ∷ rest)) }
    ensures fits { OnOk result (count_of reading.new.held ≤ 19) }
    ensures number { OnOk result (reading.new.number ≡ reading.old.number + 1) }
    ensures broken { let card = columns (without_return bytes.now) in (f : Fault)
        → result ≡ Err (Refusal.Broken f) → (rest : List Card) → fault_with reading.old
        (card ∷ rest) ≡ Some f }
{
    let held = replace(&mut reading.held, Held::Nothing);
    match take(alloc, reading.number, held, &mut reading.done, bytes) {
        Ok(held) => {
            reading.held = held;
            reading.number += 1;
            Ok(())
        }
        Err(refusal) => Err(refusal),
    }
}

/// Reads the byte at a place, where a card began at `start`: at a line end the card is read. Where the card of the next byte
/// begins.
pub(crate) fn read_byte(
    alloc: Global,
    reading: &mut Reading,
    bytes: &[u8],
    start: usize,
    at: usize,
) -> Result<usize, Refusal>
    requires started { start ≤ at }
    requires within { at < length bytes.now }
    requires fits { count_of reading.old.held ≤ 19 }
    requires room { reading.old.number + 1 < 2 ^ 32 }
    ensures started { IfOk result (λ next. next ≤ at + 1) }
    ensures entries { IfOk result (λ next. entries_with reading.new
        (cards_from (drop (at + 1) bytes.now) (part bytes.now next (at + 1)))
        ≡ entries_with reading.old (cards_from (drop at bytes.now) (part bytes.now start at))) }
    ensures faults { IfOk result (λ next. fault_with reading.new
        (cards_from (drop (at + 1) bytes.now) (part bytes.now next (at + 1)))
        ≡ fault_with reading.old (cards_from (drop at bytes.now) (part bytes.now start at))) }
    ensures fits { OnOk result (count_of reading.new.held ≤ 19) }
    ensures number { OnOk result (reading.new.number ≤ reading.old.number + 1) }
    ensures broken { (f : Fault) → result ≡ Err (Refusal.Broken f) → fault_with reading.old
        (cards_from (drop at bytes.now) (part bytes.now start at)) ≡ Some f }
{
    if bytes[at] != b'\n' {
        return Ok(start);
    }
    match read(alloc, reading, &bytes[start..at]) {
        Ok(()) => Ok(at + 1),
        Err(refusal) => Err(refusal),
    }
}

/// Reads what is behind the last line end.
#[tactic(auto, using(crate::proofs::Last::one_card))]
pub(crate) fn read_last(alloc: Global, reading: &mut Reading, card: &[u8]) -> Result<(), Refusal>
    requires fits { count_of reading.old.held ≤ 19 }
    requires room { reading.old.number + 1 < 2 ^ 32 }
    ensures entries { OnOk result (entries_with reading.new [] ≡ entries_with reading.old
        (last_card card.now)) }
    ensures faults { OnOk result (fault_with reading.new [] ≡ fault_with reading.old (last_card card.now)) }
    ensures broken { (f : Fault) → result ≡ Err (Refusal.Broken f) → fault_with reading.old
        (last_card card.now) ≡ Some f }
{
    if card.is_empty() {
        return Ok(());
    }
    read(alloc, reading, card)
}
