// What is gathered of the notes that were judged.
ghost use Rattle.std.specs.Prelude.{◌≡◌, ◌++◌, ◌∷◌, [], OnOk};
ghost use Rattle.note_judging.specs.Items.{Learns, noted_as};

use crate::Noted;
use edge_io::NoMemory;
use fort_syntax::Placed;
use note_reading::NoteForm;
use note_steps::Taken;

// The notes that were judged, and what is known of them.
#[derive(Drop)]
pub(crate) struct Gathered {
    pub taken: Taken,
    pub items: Vec<Noted>,
}

// Learns of a note more what it says.
fn learn(taken: &mut Taken, unit: u32, form: &NoteForm) -> Result<(), NoMemory>
    ensures { OnOk result (Learns taken.old taken.new unit form.now) }
{
    match form {
        NoteForm::Bound(_) => {
            taken.bounded = true;
            Ok(())
        }
        NoteForm::Input(_) => taken.inputs.add(unit as usize),
        NoteForm::Output(_) => taken.outputs.add(unit as usize),
        NoteForm::Proof(p) => match taken.lemmas.add(p.lemma) {
            Ok(_) => Ok(()),
            Err(_) => Err(NoMemory),
        },
        NoteForm::Definition(_) => Ok(()),
        NoteForm::Assertion(_) => Ok(()),
        NoteForm::Run(_) => Ok(()),
        NoteForm::Try(_) => Ok(()),
    }
}

// Puts a note behind the others.
pub(crate) fn gather(gathered: &mut Gathered, note: &Placed, form: NoteForm) -> Result<(), NoMemory>
    ensures items { OnOk result (gathered.new.items.items ≡ gathered.old.items.items ++
        noted_as note.now form ∷ []) }
    ensures learns { OnOk result (Learns gathered.old.taken gathered.new.taken note.now.unit form) }
{
    let Ok(()) = learn(&mut gathered.taken, note.unit, &form) else {
        return Err(NoMemory);
    };
    let noted = Noted {
        unit: note.unit,
        line: note.line,
        card: note.card,
        form,
    };
    let Ok(()) = gathered.items.push(noted) else {
        return Err(NoMemory);
    };
    Ok(())
}
