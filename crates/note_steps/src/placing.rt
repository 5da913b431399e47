// Whether a note stands where it may.
ghost use Rattle.std.specs.Prelude.{◌≡◌};
ghost use Rattle.fort_notes.specs.Judging.{last_end};
ghost use Rattle.note_places.specs.Places.{AreMarksOf, kind_of};
ghost use Rattle.note_steps.specs.Steps.{is_placed, is_repeated};

use crate::sites::{is_alone_at_line, is_at_head, is_before_units, is_behind_units};
use crate::{Sites, Taken};
use fort_syntax::Placed;
use note_places::NoteWord;

// Whether a note stands where one with its first word may stand.
pub(crate) fn is_placed(sites: &Sites<'_>, bounded: bool, word: NoteWord, note: &Placed) -> bool
    requires last { sites.now.last_end ≡ last_end 0 sites.now.deck.now.units }
    requires marks { AreMarksOf sites.now.deck.now.notes sites.now.asserts }
    ensures { result ≡ is_placed sites.now.deck.now bounded (kind_of word) note.now }
{
    match word {
        NoteWord::Bound => is_before_units(note) && !bounded,
        NoteWord::PlainDefinition => is_before_units(note),
        NoteWord::CountingDefinition => is_before_units(note),
        NoteWord::Input => is_at_head(note),
        NoteWord::Output => is_at_head(note),
        NoteWord::Assert => is_alone_at_line(sites.deck, &sites.asserts, note),
        NoteWord::Run => is_behind_units(sites.deck, sites.last_end, note),
        NoteWord::Try => is_behind_units(sites.deck, sites.last_end, note),
        NoteWord::Proof => is_behind_units(sites.deck, sites.last_end, note),
    }
}

// Whether the unit has an INPUT or OUTPUT already.
pub(crate) fn is_repeated(taken: &Taken, word: NoteWord, unit: u32) -> bool
    ensures { result ≡ is_repeated taken.now (kind_of word) unit }
{
    match word {
        NoteWord::Input => taken.inputs.has(unit as usize),
        NoteWord::Output => taken.outputs.has(unit as usize),
        NoteWord::Bound => false,
        NoteWord::PlainDefinition => false,
        NoteWord::CountingDefinition => false,
        NoteWord::Assert => false,
        NoteWord::Run => false,
        NoteWord::Try => false,
        NoteWord::Proof => false,
    }
}
