// What is written of what is found of a deck.
ghost use Rattle.std.specs.Prelude.{◌≡◌, ◌<◌, ◌^◌, ◌≤◌, ◌⊎◌, IfOk, OnErr, length, map};
ghost use Rattle.edge_io.specs.Causes.{Rose};
ghost use Rattle.event_text.specs.Conditions.{IsConditionIn, IsDefinitionIn, condition_tree};
ghost use Rattle.formula.specs.Adding.{AreAdded};
ghost use Rattle.formula.specs.Worth.{functions_of};
ghost use Rattle.std.specs.List.{All};
ghost use Rattle.prover_box.specs.Answers.{AreKept};
ghost use Rattle.reply_lines.specs.Lines.{accepted_line};
ghost use Rattle.run_ranks.specs.Runnable.{CanRun};
ghost use Rattle.run_texts.specs.Runs.{run_text};
ghost use Rattle.try_lines.specs.Tries.{try_text};
ghost use Rattle.vcg_top.specs.Answers.{AppendsOf, AppendsPartOf, count_of_marked};
ghost use Rattle.vcg_top.specs.Commands.{AsksNone, dialect_of};
ghost use Rattle.vcg_top.specs.Found.{AreMarksOf, IsMadeOf, IsReplyOf, IsTextOf, sizes_found};
ghost use Rattle.vcg_top.specs.Marked.{AreSmall};
ghost use Rattle.vcg_top.specs.declared.command.Command.TheVariants.{Deck, Made};
ghost use Rattle.vcg_top.specs.declared.command.Task.TheVariants.{Check, Run, Try};
ghost use Rattle.vcg_top.specs.declared.status.Status.TheVariants.{Done, WriteFault, NoMemory as Starved};

use crate::Status;
use crate::command::{Command, Task};
use crate::writing::write_text;
use deck_judging::Judged;
use edge_io::{NoMemory, Sink};
use event_text::{Marks, WritingStack, write_events};
use fort_syntax::Dialect;
use prover_box::{Prover, close_all};
use reply_lines::{Sizes, accepted_line, made_line};
use run_texts::{RunDeck, run_text};
use std::alloc::Global;
use try_lines::try_text;

/// A count has 64 bits. It does nothing.
fn small(count: u64)
    ensures { count < 2 ^ 64 }
{}

/// What is told of provers has counts of 64 bits.
fn counted(asked: &[(u8, u64)])
    ensures { AreSmall asked.now }
{
    for i in 0..asked.len() {
        small(asked[i].1);
    }
}

/// The marks that provers give to what is found of a deck.
fn marks_of(
    alloc: Global,
    provers: &mut Vec<Box<dyn Prover>>,
    found: &Judged,
) -> Result<Marks, NoMemory>
    requires conditions { All (IsConditionIn found.now.pool) found.now.conditions }
    requires added { AreAdded found.now.pool found.now.definitions }
    ensures marks { IfOk result (AreMarksOf found.now (map seen provers.old.items)
        (map seen provers.new.items)) }
    ensures kept { AreKept (map seen provers.old.items) (map seen provers.new.items) }
{
    let Ok(marks) = close_all(
        alloc,
        provers,
        &found.pool,
        &found.definitions,
        &found.conditions,
    ) else {
        return Err(NoMemory);
    };
    counted(marks.asked.as_slice());
    Ok(marks)
}

/// Writes the text of definitions and conditions, with the marks that provers give.
fn tell<K: Sink>(
    alloc: Global,
    provers: &mut Vec<Box<dyn Prover>>,
    sink: &mut K,
    found: &Judged,
) -> Status
    requires definitions { All (IsDefinitionIn found.now.pool) found.now.definitions }
    requires conditions { All (IsConditionIn found.now.pool) found.now.conditions }
    requires added { AreAdded found.now.pool found.now.definitions }
    ensures only { (result ≡ Done) ⊎ ((result ≡ WriteFault) ⊎ (result ≡ Starved)) }
    ensures done { result ≡ Done → AppendsOf (IsTextOf found.now (map seen provers.old.items)
        (map seen provers.new.items)) (K.written sink.old) (K.written sink.new) }
    ensures part { result ≡ WriteFault → AppendsPartOf (IsTextOf found.now
        (map seen provers.old.items) (map seen provers.new.items)) (K.written sink.old)
        (K.written sink.new) }
    ensures cause { result ≡ WriteFault → Rose (K.faults sink.old) (K.faults sink.new) }
    ensures nothing { result ≡ Starved → sink.new ≡ sink.old }
    ensures later { K.faults sink.old ≤ K.faults sink.new }
    ensures kept { AreKept (map seen provers.old.items) (map seen provers.new.items) }
{
    let Ok(marks) = marks_of(alloc, provers, found) else {
        return Status::NoMemory;
    };
    let Ok(mut stack) = WritingStack::new(alloc, &found.pool) else {
        return Status::NoMemory;
    };
    let Ok(()) = write_events(
        sink,
        &found.pool,
        &found.definitions,
        &found.conditions,
        &marks,
        &mut stack,
    ) else {
        return Status::WriteFault;
    };
    Status::Done
}

/// How many units, paths and conditions are found of a deck.
fn sizes(found: &Judged) -> Sizes
    ensures { result ≡ sizes_found found.now }
{
    Sizes {
        units: found.units as u64,
        paths: found.paths as u64,
        conditions: found.conditions.as_slice().len() as u64,
    }
}

/// Writes how many units, paths and conditions a deck has.
fn tell_sizes<K: Sink>(alloc: Global, sink: &mut K, found: &Judged) -> Status
    ensures only { (result ≡ Done) ⊎ ((result ≡ WriteFault) ⊎ (result ≡ Starved)) }
    ensures done { result ≡ Done → AppendsOf (λ text. text ≡ accepted_line (sizes_found found.now))
        (K.written sink.old) (K.written sink.new) }
    ensures part { result ≡ WriteFault → AppendsPartOf (λ text. text ≡ accepted_line
        (sizes_found found.now)) (K.written sink.old) (K.written sink.new) }
    ensures cause { result ≡ WriteFault → Rose (K.faults sink.old) (K.faults sink.new) }
    ensures nothing { result ≡ Starved → sink.new ≡ sink.old }
    ensures later { K.faults sink.old ≤ K.faults sink.new }
{
    let Ok(line) = accepted_line(alloc, sizes(found)) else {
        return Status::NoMemory;
    };
    write_text(sink, line.as_slice())
}

/// How many marks are letters.
fn count_of_marked(letters: &[u8]) -> u64
    ensures { result ≡ count_of_marked letters.now }
{
    letters.iter().filter(|mark| **mark != b'-').count() as u64
}

/// Writes how many units, paths, conditions and marks the made deck of a number has.
fn tell_made<K: Sink>(
    alloc: Global,
    number: u64,
    provers: &mut Vec<Box<dyn Prover>>,
    sink: &mut K,
    found: &Judged,
) -> Status
    requires conditions { All (IsConditionIn found.now.pool) found.now.conditions }
    requires added { AreAdded found.now.pool found.now.definitions }
    ensures only { (result ≡ Done) ⊎ ((result ≡ WriteFault) ⊎ (result ≡ Starved)) }
    ensures done { result ≡ Done → AppendsOf (IsMadeOf number found.now (map seen provers.old.items)
        (map seen provers.new.items)) (K.written sink.old) (K.written sink.new) }
    ensures part { result ≡ WriteFault → AppendsPartOf (IsMadeOf number found.now
        (map seen provers.old.items) (map seen provers.new.items)) (K.written sink.old)
        (K.written sink.new) }
    ensures cause { result ≡ WriteFault → Rose (K.faults sink.old) (K.faults sink.new) }
    ensures nothing { result ≡ Starved → sink.new ≡ sink.old }
    ensures later { K.faults sink.old ≤ K.faults sink.new }
    ensures kept { AreKept (map seen provers.old.items) (map seen provers.new.items) }
{
    let Ok(marks) = marks_of(alloc, provers, found) else {
        return Status::NoMemory;
    };
    let marked = count_of_marked(marks.letters.as_slice());
    let Ok(line) = made_line(alloc, number, sizes(found), marked) else {
        return Status::NoMemory;
    };
    write_text(sink, line.as_slice())
}

/// Writes what the TRY cards of a deck come to.
fn tell_tries<K: Sink>(alloc: Global, sink: &mut K, found: Judged) -> Status
    requires definitions { All (IsDefinitionIn found.pool) found.definitions }
    requires conditions { All (IsConditionIn found.pool) found.conditions }
    requires added { AreAdded found.pool found.definitions }
    ensures only { (result ≡ Done) ⊎ ((result ≡ WriteFault) ⊎ (result ≡ Starved)) }
    ensures done { result ≡ Done → AppendsOf (λ text. text ≡ try_text
        (functions_of found.pool found.definitions) (map (condition_tree found.pool)
        found.conditions) 1 found.tries) (K.written sink.old) (K.written sink.new) }
    ensures part { result ≡ WriteFault → AppendsPartOf (λ text. text ≡ try_text
        (functions_of found.pool found.definitions) (map (condition_tree found.pool)
        found.conditions) 1 found.tries) (K.written sink.old) (K.written sink.new) }
    ensures cause { result ≡ WriteFault → Rose (K.faults sink.old) (K.faults sink.new) }
    ensures nothing { result ≡ Starved → sink.new ≡ sink.old }
    ensures later { K.faults sink.old ≤ K.faults sink.new }
{
    let Judged {
        deck: _,
        pool,
        definitions,
        conditions,
        units: _,
        paths: _,
        bound: _,
        order: _,
        runs: _,
        tries,
    } = found;
    let Ok(text) = try_text(
        alloc,
        pool,
        &definitions,
        conditions.as_slice(),
        tries.as_slice(),
    ) else {
        return Status::NoMemory;
    };
    write_text(sink, text.as_slice())
}

/// Writes what the runs come to that the RUN cards of a deck ask for.
fn tell_runs<K: Sink>(alloc: Global, dialect: Dialect, sink: &mut K, found: &Judged) -> Status
    requires { CanRun dialect found.now.deck.units found.now.order }
    ensures only { (result ≡ Done) ⊎ ((result ≡ WriteFault) ⊎ (result ≡ Starved)) }
    ensures done { result ≡ Done → AppendsOf (λ text. text ≡ run_text dialect found.now.deck.units
        found.now.bound 1 found.now.runs) (K.written sink.old) (K.written sink.new) }
    ensures part { result ≡ WriteFault
        → AppendsPartOf (λ text. text ≡ run_text dialect found.now.deck.units found.now.bound
        1 found.now.runs) (K.written sink.old) (K.written sink.new) }
    ensures cause { result ≡ WriteFault → Rose (K.faults sink.old) (K.faults sink.new) }
    ensures nothing { result ≡ Starved → sink.new ≡ sink.old }
    ensures later { K.faults sink.old ≤ K.faults sink.new }
{
    let deck = RunDeck {
        dialect,
        units: found.deck.units.as_slice(),
        order: found.order.as_slice(),
        bound: found.bound,
    };
    let Ok(text) = run_text(alloc, found.pool.keys(), &deck, found.runs.as_slice()) else {
        return Status::NoMemory;
    };
    write_text(sink, text.as_slice())
}

/// Writes what a command asks for of what is found of a deck.
pub(crate) fn reply<K: Sink>(
    alloc: Global,
    command: Command,
    provers: &mut Vec<Box<dyn Prover>>,
    sink: &mut K,
    found: Judged,
) -> Status
    requires definitions { All (IsDefinitionIn found.pool) found.definitions }
    requires conditions { All (IsConditionIn found.pool) found.conditions }
    requires added { AreAdded found.pool found.definitions }
    requires runs { CanRun (dialect_of command) found.deck.units found.order }
    ensures only { (result ≡ Done) ⊎ ((result ≡ WriteFault) ⊎ (result ≡ Starved)) }
    ensures done { result ≡ Done → AppendsOf (IsReplyOf command found (map seen provers.old.items)
        (map seen provers.new.items)) (K.written sink.old) (K.written sink.new) }
    ensures part { result ≡ WriteFault → AppendsPartOf (IsReplyOf command found
        (map seen provers.old.items) (map seen provers.new.items)) (K.written sink.old)
        (K.written sink.new) }
    ensures cause { result ≡ WriteFault → Rose (K.faults sink.old) (K.faults sink.new) }
    ensures nothing { result ≡ Starved → sink.new ≡ sink.old }
    ensures later { K.faults sink.old ≤ K.faults sink.new }
    ensures kept { AreKept (map seen provers.old.items) (map seen provers.new.items) }
    ensures lone { AsksNone command → provers.new ≡ provers.old }
{
    match command {
        Command::Deck(Task::Vc, _) => tell(alloc, provers, sink, &found),
        Command::Deck(Task::Check, _) => tell_sizes(alloc, sink, &found),
        Command::Deck(Task::Run, dialect) => tell_runs(alloc, dialect, sink, &found),
        Command::Deck(Task::Try, _) => tell_tries(alloc, sink, found),
        Command::Made(number) => tell_made(alloc, number, provers, sink, &found),
    }
}
