// The top call.
ghost use Rattle.std.specs.Prelude.{◌≡◌, ◌≢◌, ◌≤◌, ◌↔◌, ◌⊎◌, ℕ, List, true, Some, None, IsSome, map};
ghost use Rattle.std.specs.Io.KnownBytes.{Appends};
ghost use Rattle.edge_io.specs.Causes.{Rose};
ghost use Rattle.event_text.specs.Sending.{AppendsPart};
ghost use Rattle.fort_syntax.specs.declared.deck.Deck.{Deck};
ghost use Rattle.fort_syntax.specs.declared.dialect.Dialect.{Dialect};
ghost use Rattle.fort_syntax.specs.declared.refusal.Fault.{Fault};
ghost use Rattle.fort_notes.specs.Remarks.{Remarks};
ghost use Rattle.fort_model.specs.Paths.{Path};
ghost use Rattle.fort_model.specs.Program.{Program};
ghost use Rattle.judging.specs.Judgement.{IsAcceptedIn, IsFirstFaultIn};
ghost use Rattle.prover_box.specs.Answers.{AreKept};
ghost use Rattle.reply_lines.specs.Lines.{bad_number_line};
ghost use Rattle.vcg_top.specs.Answers.{AppendsOf, AppendsPartOf, IsEither, IsRefusedText, IsReply};
ghost use Rattle.vcg_top.specs.Commands.{AsksNone, IsDeckOf, IsMadeNumber, IsReadWell, IsTakenOf, asked, dialect_of};
ghost use Rattle.vcg_top.specs.Soundness.{IsSoundText};
ghost use Rattle.vcg_top.specs.declared.command.Command.{Command};
ghost use Rattle.vcg_top.specs.declared.command.Command.TheVariants.{Deck as OfDeck, Made};
ghost use Rattle.vcg_top.specs.declared.command.Task.{Task};
ghost use Rattle.vcg_top.specs.declared.command.Task.TheVariants.{Vc};
ghost use Rattle.vcg_top.specs.declared.status.Status.TheVariants.{Done, Refused, Usage, ReadFault, WriteFault, NoMemory as Starved};

use crate::Status;
use crate::answering::{answer_made, answer_read};
use crate::command::Command;
use crate::words::command_of;
use edge_io::{Sink, Source};
use prover_box::Prover;
use std::alloc::Global;

/// The top call. The words are those behind the program's name. `vc`, `check`, `run` and `try` speak of the
/// deck that comes by the source, and behind each of them may stand `77` for FORTRAN 77:
///
/// - `vc` writes the text of the definitions and the conditions of the deck. Each condition is put to
///   the provers in order, until one says yes, whose letter is its mark; where all say no, its mark is `-`.
/// - `check` writes how many units, paths and conditions it has.
/// - `run` writes, for each of its RUN cards, what the run of a unit comes to that the card asks for.
/// - `try` writes, for each of its TRY cards, what the condition that the card names comes to.
/// - `made n`, for 1 to 18 digits n, reads nothing: it makes a deck of n units, does with it what `vc`
///   does but write, and writes how many units, paths, conditions and marks it has.
///
/// `Done` answers that the deck keeps all rules and that what was asked for was written, and `Refused`
/// that the line of its first fault was, or that no deck of such a number is made. `Usage` answers that
/// the words are others: nothing is read or written. At `ReadFault` the source failed, and at
/// `NoMemory` memory was wanted and not had: nothing is written. At `WriteFault` the sink failed, and a
/// front part of the text was written. Provers were asked at `Done` of `vc` and of `made`, and may have
/// been at their `NoMemory` and `WriteFault`; whatever is answered, they keep their letters and tests,
/// and no count falls.
///
/// What `vc` writes at `Done` is sound: where all of the conditions are valid, each call of each unit of
/// the deck ends without error and meets OUTPUT, on each processor of the dialect that meets the bound,
/// from each storage that fits and meets INPUT. A condition whose mark is a letter is valid, so it is
/// enough that those marked `-` are.
pub fn vcg<S: Source, K: Sink>(
    alloc: Global,
    words: &[String],
    source: &mut S,
    sink: &mut K,
    provers: &mut Vec<Box<dyn Prover>>,
) -> Status
    ensures usage { (result ≡ Usage) ↔ (asked words.now ≡ None) }
    ensures untouched { result ≡ Usage → (source.new ≡ source.old) × (sink.new ≡ sink.old)
        × (provers.new ≡ provers.old) }
    ensures later_read { S.faults source.old ≤ S.faults source.new }
    ensures later_write { K.faults sink.old ≤ K.faults sink.new }
    ensures read_fault { result ≡ ReadFault → ((t : Task) × (d : Dialect)
        × (asked words.now ≡ Some (OfDeck t d))) × Rose (S.faults source.old)
        (S.faults source.new) }
    ensures write_fault { result ≡ WriteFault → IsSome (asked words.now) × Rose (K.faults sink.old)
        (K.faults sink.new) }
    ensures never_faults { S.never source.old ≡ true → result ≢ ReadFault }
    ensures unwritten { (result ≡ ReadFault) ⊎ (result ≡ Starved) → sink.new ≡ sink.old }
    ensures unread { (n : ℕ) → asked words.now ≡ Some (Made n) → source.new ≡ source.old }

    // Provers are asked under `vc` and `made` alone, and of decks that are accepted.
    ensures unasked { (result ≡ ReadFault) ⊎ (result ≡ Refused) → provers.new ≡ provers.old }
    ensures lone { (c : Command) → asked words.now ≡ Some c → AsksNone c → provers.new ≡ provers.old }
    ensures kept { AreKept (map seen provers.old.items) (map seen provers.new.items) }

    // Of the deck of a command, made or from a source that tells its bytes: what was read, and what was written for it.
    ensures done { (c : Command) (bytes : List ℕ) → asked words.now ≡ Some c
        → IsDeckOf c (S.left source.old) bytes → result ≡ Done → IsTakenOf c bytes
        (S.left source.new) × AppendsOf (IsReply c bytes (map seen provers.old.items)
        (map seen provers.new.items)) (K.written sink.old) (K.written sink.new) }
    ensures refused { (c : Command) (bytes : List ℕ) → asked words.now ≡ Some c
        → IsDeckOf c (S.left source.old) bytes → result ≡ Refused → IsTakenOf c bytes
        (S.left source.new) × AppendsOf (IsRefusedText (dialect_of c) bytes) (K.written sink.old)
        (K.written sink.new) }
    ensures part { (c : Command) (bytes : List ℕ) → asked words.now ≡ Some c
        → IsDeckOf c (S.left source.old) bytes → result ≡ WriteFault
        → IsTakenOf c bytes (S.left source.new) × AppendsPartOf (IsEither c bytes
        (map seen provers.old.items) (map seen provers.new.items)) (K.written sink.old)
        (K.written sink.new) }
    ensures bad_number { (n : ℕ) → asked words.now ≡ Some (Made n) → ¬ IsMadeNumber n
        → ((result ≡ Refused) × Appends (K.written sink.old) (K.written sink.new) bad_number_line)
        ⊎ ((result ≡ WriteFault) × AppendsPart (K.written sink.old) (K.written sink.new)
        bad_number_line) }

    // The conditions that `vc` writes are exact, and where all are valid, the program of the deck is totally correct; those
    // marked with a letter are valid, so it is enough that those marked `-` are.
    ensures sound { (d : Dialect) (bytes : List ℕ) → asked words.now ≡ Some (OfDeck Vc d)
        → S.left source.old ≡ Some bytes → result ≡ Done
        → AppendsOf (IsSoundText d bytes (map seen provers.old.items) (map seen provers.new.items))
        (K.written sink.old) (K.written sink.new) }

    // A deck is done where it is accepted, neither end fails and there is memory; and refused where it has a fault.
    ensures complete { (c : Command) (bytes : List ℕ) (deck : Deck) (r : Remarks) (p : Program)
        (paths : List (List Path)) → asked words.now ≡ Some c → IsDeckOf c (S.left source.old) bytes
        → IsAcceptedIn (dialect_of c) bytes deck r p paths → IsReadWell c (S.faults source.old)
        (S.faults source.new) → ¬ Rose (K.faults sink.old) (K.faults sink.new) → (result ≡ Done)
        ⊎ (result ≡ Starved) }
    ensures strict { (c : Command) (bytes : List ℕ) (f : Fault) → asked words.now ≡ Some c
        → IsDeckOf c (S.left source.old) bytes → IsFirstFaultIn (dialect_of c) bytes f
        → IsReadWell c (S.faults source.old) (S.faults source.new) → ¬ Rose (K.faults sink.old)
        (K.faults sink.new) → (result ≡ Refused) ⊎ (result ≡ Starved) }
{
    let Some(command) = command_of(words) else {
        return Status::Usage;
    };
    match command {
        Command::Deck(_, _) => answer_read(alloc, command, source, provers, sink),
        Command::Made(number) => answer_made(alloc, number, provers, sink),
    }
}
