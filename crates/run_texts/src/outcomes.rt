// The text of the outcome of a run.
ghost use Rattle.std.specs.Prelude.{◌≡◌, ◌++◌, ◌<◌, ◌^◌, OnOk};
ghost use Rattle.run_state.specs.Rests.{told_by, told_in};
ghost use Rattle.run_texts.specs.Outcomes.{erred_text, own_text};
ghost use Rattle.run_texts.specs.Told.{listed_text, told_text};
ghost use Rattle.run_state.specs.Rests.{has_ended};

use crate::cells::{put_entry, put_value};
use edge_io::NoMemory;
use fort_syntax::{Kind, Unit};
use reply_lines::{put, put_number};
use run_eval::{Entry, Run};
use run_held::Held;
use run_rooms::Pile;
use run_state::{Stage, State};

/// Puts entries with what their cells hold.
fn put_entries(text: &mut Vec<u8>, entries: &[Entry], cells: &Pile) -> Result<(), NoMemory>
    ensures { OnOk result (text.new.items ≡ text.old.items ++ listed_text entries.now cells.now.items) }
{
    for done in 0..entries.len() {
        let entry = entries[done];
        put_entry(text, entry.name.as_bytes(), cells, entry.cells)?;
    }
    Ok(())
}

/// Puts the value of a FUNCTION; nothing for a SUBROUTINE.
fn put_own(text: &mut Vec<u8>, unit: &Unit, value: &Held) -> Result<(), NoMemory>
    ensures { OnOk result (text.new.items ≡ text.old.items ++ own_text unit.now value.now) }
{
    if unit.sort.is_none() {
        return Ok(());
    }
    put_value(text, unit.name.as_bytes(), value)
}

/// Puts how a run has ended.
fn put_ended(
    text: &mut Vec<u8>,
    unit: &Unit,
    entries: &[Entry],
    cells: &Pile,
    value: &Held,
) -> Result<(), NoMemory>
    ensures { OnOk result (text.new.items ≡ text.old.items ++ told_text unit.now entries.now
        (has_ended value.now cells.now.items)) }
{
    put(text, b"ENDED")?;
    put_entries(text, entries, cells)?;
    put_own(text, unit, value)
}

/// Puts an error at a card.
fn put_erred(text: &mut Vec<u8>, kind: Kind, card: usize) -> Result<(), NoMemory>
    ensures { OnOk result (text.new.items ≡ text.old.items ++ erred_text kind card) }
{
    put(text, b"ERRED ")?;
    put(text, kind.word())?;
    put(text, b" CARD ")?;
    put_number(text, card as u64)
}

/// Puts what a run of a unit tells.
pub(crate) fn put_told(
    text: &mut Vec<u8>,
    unit: &Unit,
    entries: &[Entry],
    state: &State,
) -> Result<(), NoMemory>
    ensures { OnOk result (text.new.items ≡ text.old.items ++ told_text unit.now entries.now
        (told_by state.now)) }
{
    match &state.stage {
        Stage::Ended(value) => put_ended(text, unit, entries, &state.cells, value),
        Stage::Erred(kind) => put_erred(text, *kind, state.frame.card),
        _ => put(text, b"RUNNING"),
    }
}
