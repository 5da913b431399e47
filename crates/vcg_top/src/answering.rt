// What is written for the bytes of a deck.
ghost use Rattle.std.specs.Prelude.{◌≡◌, ◌≢◌, ◌≤◌, ◌⊎◌, ℕ, List, drop, map, true, Some};
ghost use Rattle.std.specs.Io.KnownBytes.{Appends};
ghost use Rattle.edge_io.specs.Causes.{Rose};
ghost use Rattle.deck_made.specs.Made.{made_deck};
ghost use Rattle.event_text.specs.Sending.{AppendsPart};
ghost use Rattle.prover_box.specs.Answers.{AreKept};
ghost use Rattle.reply_lines.specs.Lines.{bad_number_line};
ghost use Rattle.vcg_top.specs.Answers.{AppendsOf, AppendsPartOf, IsEither, IsRefusedText, IsReply};
ghost use Rattle.vcg_top.specs.Commands.{AsksNone, IsMadeNumber, dialect_of, most_read};
ghost use Rattle.vcg_top.specs.declared.command.Command.TheVariants.{Made};
ghost use Rattle.vcg_top.specs.declared.status.Status.TheVariants.{Done, Refused, ReadFault, WriteFault, NoMemory as Starved};

use crate::Status;
use crate::command::Command;
use crate::reading::{ReadError, read_all};
use crate::replies::reply;
use crate::writing::{deny, refuse_number};
use deck_judging::judged;
use deck_made::{MadeFault, made};
use edge_io::{Keys, Sink, Source};
use prover_box::Prover;
use std::alloc::Global;

/// Writes what a command asks for of a deck that is accepted, or the line of its first fault.
fn answer<K: Sink>(
    alloc: Global,
    command: Command,
    provers: &mut Vec<Box<dyn Prover>>,
    sink: &mut K,
    bytes: &[u8],
) -> Status
    ensures only { (result ≡ Done) ⊎ ((result ≡ Refused) ⊎ ((result ≡ WriteFault) ⊎ (result ≡ Starved))) }
    ensures done { result ≡ Done → AppendsOf (IsReply command bytes.now (map seen provers.old.items)
        (map seen provers.new.items)) (K.written sink.old) (K.written sink.new) }
    ensures refused { result ≡ Refused → AppendsOf (IsRefusedText (dialect_of command) bytes.now)
        (K.written sink.old) (K.written sink.new) }
    ensures part { result ≡ WriteFault → AppendsPartOf (IsEither command bytes.now
        (map seen provers.old.items) (map seen provers.new.items)) (K.written sink.old)
        (K.written sink.new) }
    ensures cause { result ≡ WriteFault → Rose (K.faults sink.old) (K.faults sink.new) }
    ensures nothing { result ≡ Starved → sink.new ≡ sink.old }
    ensures later { K.faults sink.old ≤ K.faults sink.new }
    ensures unasked { result ≡ Refused → provers.new ≡ provers.old }
    ensures kept { AreKept (map seen provers.old.items) (map seen provers.new.items) }
    ensures lone { AsksNone command → provers.new ≡ provers.old }
{
    match judged(alloc, Keys::of(bytes), command.dialect(), bytes) {
        Ok(found) => reply(alloc, command, provers, sink, found),
        Err(refusal) => deny(sink, refusal),
    }
}

/// Writes what a command asks for of the deck that is read, or the line of its first fault.
pub(crate) fn answer_read<S: Source, K: Sink>(
    alloc: Global,
    command: Command,
    source: &mut S,
    provers: &mut Vec<Box<dyn Prover>>,
    sink: &mut K,
) -> Status
    ensures only { (result ≡ ReadFault) ⊎ ((result ≡ Done) ⊎ ((result ≡ Refused)
        ⊎ ((result ≡ WriteFault) ⊎ (result ≡ Starved)))) }
    ensures later_read { S.faults source.old ≤ S.faults source.new }
    ensures read_fault { result ≡ ReadFault → Rose (S.faults source.old) (S.faults source.new) }
    ensures never_faults { S.never source.old ≡ true → result ≢ ReadFault }
    ensures taken { (bytes : List ℕ) → S.left source.old ≡ Some bytes → (result ≡ Done)
        ⊎ ((result ≡ Refused) ⊎ (result ≡ WriteFault)) → S.left source.new ≡ Some
        (drop most_read bytes) }
    ensures done { (bytes : List ℕ) → S.left source.old ≡ Some bytes → result ≡ Done
        → AppendsOf (IsReply command bytes (map seen provers.old.items)
        (map seen provers.new.items)) (K.written sink.old) (K.written sink.new) }
    ensures refused { (bytes : List ℕ) → S.left source.old ≡ Some bytes → result ≡ Refused
        → AppendsOf (IsRefusedText (dialect_of command) bytes) (K.written sink.old)
        (K.written sink.new) }
    ensures part { (bytes : List ℕ) → S.left source.old ≡ Some bytes → result ≡ WriteFault
        → AppendsPartOf (IsEither command bytes (map seen provers.old.items)
        (map seen provers.new.items)) (K.written sink.old) (K.written sink.new) }
    ensures cause { result ≡ WriteFault → Rose (K.faults sink.old) (K.faults sink.new) }
    ensures nothing { (result ≡ ReadFault) ⊎ (result ≡ Starved) → sink.new ≡ sink.old }
    ensures later { K.faults sink.old ≤ K.faults sink.new }
    ensures unasked { (result ≡ ReadFault) ⊎ (result ≡ Refused) → provers.new ≡ provers.old }
    ensures kept { AreKept (map seen provers.old.items) (map seen provers.new.items) }
    ensures lone { AsksNone command → provers.new ≡ provers.old }
{
    let bytes = match read_all(alloc, source) {
        Ok(bytes) => bytes,
        Err(ReadError::Fault) => return Status::ReadFault,
        Err(ReadError::NoMemory) => return Status::NoMemory,
    };
    answer(alloc, command, provers, sink, &bytes)
}

/// Writes how many units, paths, conditions and marks the made deck of a number has, or why it has none.
pub(crate) fn answer_made<K: Sink>(
    alloc: Global,
    number: u64,
    provers: &mut Vec<Box<dyn Prover>>,
    sink: &mut K,
) -> Status
    ensures only { (result ≡ Done) ⊎ ((result ≡ Refused) ⊎ ((result ≡ WriteFault) ⊎ (result ≡ Starved))) }
    ensures done { IsMadeNumber number → result ≡ Done
        → AppendsOf (IsReply (Made number) (made_deck number) (map seen provers.old.items)
        (map seen provers.new.items)) (K.written sink.old) (K.written sink.new) }
    ensures refused { IsMadeNumber number → result ≡ Refused
        → AppendsOf (IsRefusedText (dialect_of (Made number)) (made_deck number))
        (K.written sink.old) (K.written sink.new) }
    ensures part { IsMadeNumber number → result ≡ WriteFault
        → AppendsPartOf (IsEither (Made number) (made_deck number) (map seen provers.old.items)
        (map seen provers.new.items)) (K.written sink.old) (K.written sink.new) }
    ensures bad_number { ¬ IsMadeNumber number → ((result ≡ Refused) × Appends (K.written sink.old)
        (K.written sink.new) bad_number_line) ⊎ ((result ≡ WriteFault) × AppendsPart
        (K.written sink.old) (K.written sink.new) bad_number_line) }
    ensures cause { result ≡ WriteFault → Rose (K.faults sink.old) (K.faults sink.new) }
    ensures nothing { result ≡ Starved → sink.new ≡ sink.old }
    ensures later { K.faults sink.old ≤ K.faults sink.new }
    ensures unasked { result ≡ Refused → provers.new ≡ provers.old }
    ensures kept { AreKept (map seen provers.old.items) (map seen provers.new.items) }
{
    match made(alloc, number) {
        Ok(text) => answer(alloc, Command::Made(number), provers, sink, text.as_slice()),
        Err(MadeFault::BadNumber) => refuse_number(sink),
        Err(MadeFault::NoMemory) => Status::NoMemory,
    }
}
