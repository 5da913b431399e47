// Units without INPUT or OUTPUT.
ghost use Rattle.std.specs.Prelude.{◌≡◌, ◌&&◌, not, IfOk};
ghost use Rattle.fort_notes.specs.Judging.{lacking_from, missing_note};
ghost use Rattle.note_places.specs.Places.{is_known};

use crate::UnitSet;
use edge_io::{Keys, NoMemory};
use fort_syntax::{Deck, Fault, Placed, Rule, Unit};
use std::alloc::Global;

// Whether a unit is not in both sets.
fn lacks(inputs: &UnitSet, outputs: &UnitSet, unit: usize) -> bool
    ensures { result ≡ not (is_known unit inputs.now && is_known unit outputs.now) }
{
    !(inputs.has(unit) && outputs.has(unit))
}

// The fault of the first unit that lacks a note.
fn lacking(
    alloc: Global,
    keys: Keys,
    notes: &[Placed],
    units: &[Unit],
) -> Result<Option<Fault>, NoMemory>
    ensures { IfOk result (λ f. f ≡ lacking_from notes.now 1 units.now) }
{
    let inputs = UnitSet::of_inputs(alloc, keys, notes)?;
    let outputs = UnitSet::of_outputs(alloc, keys, notes)?;
    for i in 0..units.len() {
        if lacks(&inputs, &outputs, i + 1) {
            return Ok(Some(Fault {
                rule: Rule::NoInputOrOutput,
                card: units[i].head,
            }));
        }
    }
    Ok(None)
}

/// The fault of the first unit without a note that begins with INPUT, or without one that begins
/// with OUTPUT, whatever else is wrong with these. No answer depends on the keys.
pub fn missing_note(alloc: Global, keys: Keys, deck: &Deck) -> Result<Option<Fault>, NoMemory>
    ensures { IfOk result (λ f. f ≡ missing_note deck.now) }
{
    lacking(alloc, keys, deck.notes.as_slice(), deck.units.as_slice())
}
