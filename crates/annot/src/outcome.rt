// What notes become that are not at fault.
ghost use Rattle.std.specs.Prelude.{◌≡◌, List, Ok, IfOk};
ghost use Rattle.formula.specs.declared.node.Node.{Node};
ghost use Rattle.fort_notes.specs.Judging.{judged_or_fault};
ghost use Rattle.fort_notes.specs.Remarks.{remarks_if};
ghost use Rattle.note_judging.specs.Items.{AreNotedIn, Tells, definitions_among, judged_trees};
ghost use Rattle.note_units.specs.Sorting.{AreIn, remarks_tree};

use fort_notes::Specs;
use fort_syntax::{Deck, Fault, Refusal};
use note_judging::Noted;
use note_units::specs_of;
use std::alloc::Global;

// What the judged notes of a deck become, where no unit lacks a note; else the fault of the first that does.
pub(crate) fn outcome(
    alloc: Global,
    deck: &Deck,
    noted: Vec<Noted>,
    missing: Option<Fault>,
) -> Result<Specs, Refusal>
    ensures tells { (pool : List Node) → Tells (remarks_tree pool (definitions_among noted.items))
        result (remarks_if deck.now.units (judged_or_fault (Ok (judged_trees pool noted.items))
        missing)) }
    ensures inside { IfOk result (λ s. (pool : List Node) → AreNotedIn pool noted.items
        → AreIn pool s.units s.proofs) }
{
    if let Some(fault) = missing {
        return Err(Refusal::Broken(fault));
    }
    let Ok(specs) = specs_of(alloc, deck.units.as_slice(), noted) else {
        return Err(Refusal::NoMemory);
    };
    Ok(specs)
}
