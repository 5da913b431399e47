// The notes of a unit.
ghost use Rattle.std.specs.Prelude.{◌≡◌, ℕ, Bool, List, map, All, OnOk};
ghost use Rattle.formula.specs.Pool.{AllBelow};
ghost use Rattle.formula.specs.declared.node.Node.{Node};
ghost use Rattle.fort_notes.specs.Assertions.{notes_tree};
ghost use Rattle.note_reading.specs.declared.note_form.NoteForm.TheVariants as note;
ghost use Rattle.path_scene.specs.Scenes.{AreNotesIn, IsAssertIn};
ghost use Rattle.note_units.specs.Sorting.{note_tree, with_note_in};

use crate::lists::{add_assert, add_terms};
use edge_io::{List, NoMemory};
use formula::TermId;
use fort_notes::{AssertSpec, UnitSpec};
use std::alloc::Global;

// Puts terms behind the INPUT of a unit; the number of no unit is passed over.
pub(crate) fn put_input(
    alloc: Global,
    units: &mut Vec<UnitSpec>,
    unit: u32,
    terms: List<TermId>,
) -> Result<(), NoMemory>
    ensures units { OnOk result ((pool : List Node) (line card : ℕ)
        → map (notes_tree pool) units.new.items ≡ with_note_in (note_tree pool unit line card
        (note.Input terms)) 1 (map (notes_tree pool) units.old.items)) }
    ensures inside { OnOk result ((n : ℕ) → AllBelow n terms → All (AreNotesIn n) units.old.items
        → All (AreNotesIn n) units.new.items) }
{
    let at = unit as usize;
    if at == 0 || units.len() < at {
        return Ok(());
    }
    let own = &mut units[at - 1];
    let Ok(()) = add_terms(alloc, &mut own.input, terms) else {
        return Err(NoMemory);
    };
    Ok(())
}

// Puts terms behind the OUTPUT of a unit; the number of no unit is passed over.
pub(crate) fn put_output(
    alloc: Global,
    units: &mut Vec<UnitSpec>,
    unit: u32,
    terms: List<TermId>,
) -> Result<(), NoMemory>
    ensures units { OnOk result ((pool : List Node) (line card : ℕ)
        → map (notes_tree pool) units.new.items ≡ with_note_in (note_tree pool unit line card
        (note.Output terms)) 1 (map (notes_tree pool) units.old.items)) }
    ensures inside { OnOk result ((n : ℕ) → AllBelow n terms → All (AreNotesIn n) units.old.items
        → All (AreNotesIn n) units.new.items) }
{
    let at = unit as usize;
    if at == 0 || units.len() < at {
        return Ok(());
    }
    let own = &mut units[at - 1];
    let Ok(()) = add_terms(alloc, &mut own.output, terms) else {
        return Err(NoMemory);
    };
    Ok(())
}

// Puts an ASSERT behind those of a unit; the number of no unit is passed over.
pub(crate) fn put_assert(
    alloc: Global,
    units: &mut Vec<UnitSpec>,
    unit: u32,
    assert: AssertSpec,
) -> Result<(), NoMemory>
    ensures units { OnOk result ((pool : List Node) (c : Bool)
        → map (notes_tree pool) units.new.items ≡ with_note_in
        (note_tree pool unit assert.line assert.card (note.Assertion
        (record { terms = assert.terms; has_clock = c; clock = assert.clock }))) 1
        (map (notes_tree pool) units.old.items)) }
    ensures inside { OnOk result ((n : ℕ) → IsAssertIn n assert → All (AreNotesIn n) units.old.items
        → All (AreNotesIn n) units.new.items) }
{
    let at = unit as usize;
    if at == 0 || units.len() < at {
        return Ok(());
    }
    let own = &mut units[at - 1];
    let Ok(()) = add_assert(alloc, &mut own.asserts, assert) else {
        return Err(NoMemory);
    };
    Ok(())
}
