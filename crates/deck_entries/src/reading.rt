// The statements and notes of a deck.
ghost use Rattle.std.specs.Prelude.{◌≡◌, ◌<◌, ◌-◌, ◌^◌, true, [], ◌∷◌, ◌++◌, List, Err, IfOk, OnOk};
ghost use Rattle.deck_laws.specs.Ascent.{card_of_entry, entries_ascend_above};
ghost use Rattle.fort_syntax.specs.Grammar.{Spells};
ghost use Rattle.fort_syntax.specs.Misspelled.{refusal_of};
ghost use Rattle.fort_syntax.specs.Units.{class_of};
ghost use Rattle.fort_syntax.specs.declared.cards.Entry.{Entry};
ghost use Rattle.fort_syntax.specs.declared.cards.Entry.TheVariants as entry;
ghost use Rattle.fort_syntax.specs.declared.refusal.Fault.{Fault};
ghost use Rattle.fort_syntax.specs.declared.refusal.Refusal.TheVariants.{Broken};
ghost use Rattle.fort_syntax.specs.declared.stmt.Stmt.{Stmt};
ghost use Rattle.deck_entries.specs.Decks.{IsMisspelled, IsFirstMisspelled};
ghost use Rattle.deck_entries.specs.Readings.{HasRead, IsBefore, IsWithin, top, passed, placed_at};

use crate::spot::Spot;
use edge_io::{List, NoMemory};
use fort_syntax::{Dialect, Entry, Fault, Line, Placed, Plain, Refusal, Stmt};
use std::alloc::Global;
use stmt_parse::{StmtRefusal, statement};

/// What has been read, and where it ends.
#[derive(Drop)]
pub struct Reading {
    /// The statements, in order.
    pub lines: Vec<Line>,
    /// The notes with their places, in order.
    pub notes: Vec<Placed>,
    /// The place behind all of them.
    pub spot: Spot,
}

/// The statement that a text spells, or its fault.
fn spelled(alloc: Global, dialect: Dialect, card: u32, text: &[u8]) -> Result<Stmt, Refusal>
    ensures spelled { IfOk result (λ s. Spells dialect text.now s) }
    ensures broken { (f : Fault) → result ≡ Err (Broken f)
        → ((s : Stmt) → ¬ Spells dialect text.now s)
        × (f ≡ record { rule = refusal_of dialect text.now; card = card }) }
{
    match statement(alloc, dialect, text) {
        Ok(stmt) => Ok(stmt),
        Err(StmtRefusal::NoMemory) => Err(Refusal::NoMemory),
        Err(StmtRefusal::Breaks(rule)) => Err(Refusal::Broken(Fault { rule, card })),
    }
}

fn card_of(entry: &Entry) -> u32
    ensures { result ≡ card_of_entry entry.now }
{
    match entry {
        Entry::Statement { card, .. } => *card,
        Entry::Note { card, .. } => *card,
    }
}

fn push_line(lines: &mut Vec<Line>, line: Line) -> Result<(), NoMemory>
    ensures { OnOk result (lines.new.items ≡ lines.old.items ++ line ∷ []) }
{
    match lines.push(line) {
        Ok(()) => Ok(()),
        Err(_) => Err(NoMemory),
    }
}

impl Reading {
    fn new(alloc: Global) -> Reading
        ensures lines { result.lines.items ≡ [] }
        ensures notes { result.notes.items ≡ [] }
        ensures spot { result.spot ≡ top }
    {
        Reading {
            lines: Vec::new(alloc),
            notes: Vec::new(alloc),
            spot: Spot::top(),
        }
    }

    fn add_line(&mut self, line: Line) -> Result<(), NoMemory>
        requires unit { self.old.spot.unit < 2 ^ 32 - 1 }
        requires line { self.old.spot.line < 2 ^ 32 - 1 }
        ensures lines { OnOk result (self.new.lines.items ≡ self.old.lines.items ++ line ∷ []) }
        ensures notes { OnOk result (self.new.notes.items ≡ self.old.notes.items) }
        ensures spot { OnOk result (self.new.spot ≡ passed (class_of line.stmt) self.old.spot) }
    {
        let class = line.stmt.class();
        let Ok(()) = push_line(&mut self.lines, line) else {
            return Err(NoMemory);
        };
        self.spot.pass(class);
        Ok(())
    }

    fn add_note(&mut self, alloc: Global, card: u32, text: &List<u8>) -> Result<(), NoMemory>
        ensures lines { OnOk result (self.new.lines.items ≡ self.old.lines.items) }
        ensures notes { OnOk result (self.new.notes.items ≡ self.old.notes.items ++ placed_at
            self.old.spot card text.now ∷ []) }
        ensures spot { OnOk result (self.new.spot ≡ self.old.spot) }
    {
        let Ok(bytes) = Vec::from_slice(alloc, text.as_slice()) else {
            return Err(NoMemory);
        };
        let note = self.spot.placed(card, List::from_vec(bytes));
        let Ok(()) = self.notes.push(note) else {
            return Err(NoMemory);
        };
        Ok(())
    }

    fn read_statement(
        &mut self,
        alloc: Global,
        dialect: Dialect,
        card: u32,
        label: u32,
        text: &[u8],
    ) -> Result<(), Refusal>
        requires { IsBefore card self.old.spot }
        ensures within { OnOk result (IsWithin card self.new.spot) }
        ensures read { OnOk result ((all left : List Entry) → HasRead dialect all
            (entry.Statement card label text.now ∷ left) self.old.lines.items self.old.notes.items
            self.old.spot → HasRead dialect all left self.new.lines.items self.new.notes.items
            self.new.spot) }
        ensures broken { (f : Fault) → result ≡ Err (Broken f) → IsMisspelled dialect
            (entry.Statement card label text.now) f }
    {
        let stmt = match spelled(alloc, dialect, card, text) {
            Ok(stmt) => stmt,
            Err(refusal) => return Err(refusal),
        };
        let Ok(()) = self.add_line(Line { card, label, stmt }) else {
            return Err(Refusal::NoMemory);
        };
        Ok(())
    }

    fn read_note(&mut self, alloc: Global, card: u32, text: &List<u8>) -> Result<(), NoMemory>
        requires { IsBefore card self.old.spot }
        ensures within { OnOk result (IsWithin card self.new.spot) }
        ensures read { OnOk result ((d : Dialect) (all left : List Entry)
            → HasRead d all (entry.Note card text.now ∷ left) self.old.lines.items
            self.old.notes.items self.old.spot → HasRead d all left self.new.lines.items
            self.new.notes.items self.new.spot) }
    {
        let Ok(()) = self.add_note(alloc, card, text) else {
            return Err(NoMemory);
        };
        Ok(())
    }

    fn read(&mut self, alloc: Global, dialect: Dialect, entry: &Entry) -> Result<(), Refusal>
        requires { IsBefore (card_of_entry entry.now) self.old.spot }
        ensures within { OnOk result (IsWithin (card_of_entry entry.now) self.new.spot) }
        ensures read { OnOk result ((all left : List Entry) → HasRead dialect all
            (entry.now ∷ left) self.old.lines.items self.old.notes.items self.old.spot
            → HasRead dialect all left self.new.lines.items self.new.notes.items self.new.spot) }
        ensures broken { (f : Fault) → result ≡ Err (Broken f) → IsMisspelled dialect entry.now f }
    {
        match entry {
            Entry::Statement { card, label, text } => {
                self.read_statement(alloc, dialect, *card, *label, text.as_slice())
            }
            Entry::Note { card, text } => {
                let Ok(()) = self.read_note(alloc, *card, text) else {
                    return Err(Refusal::NoMemory);
                };
                Ok(())
            }
        }
    }
}

/// Reads the entries of a deck, which stand on ascending cards, as far as the first statement whose text spells none.
pub fn read(alloc: Global, dialect: Dialect, cards: &[Entry]) -> Result<Reading, Refusal>
    requires { entries_ascend_above 0 cards.now ≡ true }
    ensures read { IfOk result (λ r. HasRead dialect cards.now [] r.lines.items r.notes.items r.spot) }
    ensures broken { (f : Fault) → result ≡ Err (Broken f) → IsFirstMisspelled dialect cards.now f }
{
    let mut reading = Reading::new(alloc);
    let mut last = 0;
    for entry in cards {
        if let Err(refusal) = reading.read(alloc, dialect, entry) {
            return Err(refusal);
        }
        last = card_of(entry);
    }
    Ok(reading)
}
