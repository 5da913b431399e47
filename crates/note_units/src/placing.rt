// A note more.
ghost use Rattle.std.specs.Prelude.{◌≡◌, ◌++◌, ◌∷◌, [], List, OnOk};
ghost use Rattle.formula.specs.declared.node.Node.{Node};
ghost use Rattle.note_judging.specs.Items.{judged_tree};
ghost use Rattle.note_reading.specs.NoteTrees.{IsFormIn};
ghost use Rattle.note_units.specs.Sorting.{AreIn, Puts};

use crate::own_notes::{put_assert, put_input, put_output};
use crate::sorted::Sorted;
use edge_io::NoMemory;
use fort_notes::AssertSpec;
use note_forms::Asserted;
use note_judging::Noted;
use note_reading::NoteForm;
use std::alloc::Global;

// Puts an item behind others.
fn push<X: Drop>(items: &mut Vec<X>, item: X) -> Result<(), NoMemory>
    ensures { OnOk result (items.new.items ≡ items.old.items ++ item ∷ []) }
{
    let Ok(()) = items.push(item) else {
        return Err(NoMemory);
    };
    Ok(())
}

// Puts a note where it belongs.
pub(crate) fn put(alloc: Global, sorted: &mut Sorted, noted: Noted) -> Result<(), NoMemory>
    ensures puts { OnOk result ((pool : List Node) → Puts pool sorted.old sorted.new
        (judged_tree pool noted)) }
    ensures inside { OnOk result ((pool : List Node) → IsFormIn pool noted.form
        → AreIn pool sorted.old.units.items sorted.old.proofs.items
        → AreIn pool sorted.new.units.items sorted.new.proofs.items) }
{
    let Noted {
        unit,
        line,
        card,
        form,
    } = noted;
    match form {
        NoteForm::Bound(bound) => push(&mut sorted.bounds, bound),
        NoteForm::Definition(_) => Ok(()),
        NoteForm::Input(terms) => put_input(alloc, &mut sorted.units, unit, terms),
        NoteForm::Output(terms) => put_output(alloc, &mut sorted.units, unit, terms),
        NoteForm::Assertion(asserted) => {
            let Asserted {
                terms,
                has_clock: _,
                clock,
            } = asserted;
            let assert = AssertSpec {
                line,
                card,
                terms,
                clock,
            };
            put_assert(alloc, &mut sorted.units, unit, assert)
        }
        NoteForm::Run(run) => push(&mut sorted.runs, run),
        NoteForm::Try(try_card) => push(&mut sorted.tries, try_card),
        NoteForm::Proof(proof) => push(&mut sorted.proofs, proof),
    }
}
