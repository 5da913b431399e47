// One note.
ghost use Rattle.std.specs.Prelude.{◌≡◌, ◌++◌, IfOk, OnOk};
ghost use Rattle.formula.specs.Adding.{AreAdded};
ghost use Rattle.formula.specs.Headings.{headings_of};
ghost use Rattle.formula.specs.Pool.{Grows};
ghost use Rattle.fort_notes.specs.Judging.{last_end, unit_of_number, word_of_note};
ghost use Rattle.note_names.specs.NameTests.{AreRolesOf};
ghost use Rattle.note_places.specs.Places.{AreMarksOf, kind_of};
ghost use Rattle.note_reading.specs.NoteTrees.{form_tree, IsFormIn};
ghost use Rattle.note_steps.specs.Steps.{Says, form_only, form_behind, read_as, told_if, told, judged_note, definitions_in};

use crate::defining::define;
use crate::placing::{is_placed, is_repeated};
use crate::refused::refusal_of;
use crate::{Refused, Sites, Taken};
use formula::{Definitions, Headings, TermPool};
use fort_syntax::{Placed, Rule};
use note_parts::word;
use note_places::{NoteWord, note_word};
use note_reading::{Known, NoteForm, broken, read_form};
use std::alloc::Global;

// What stands behind the first word of a text.
fn read_behind(
    alloc: Global,
    pool: &mut TermPool,
    known: &Known<'_>,
    kind: NoteWord,
    text: &[u8],
) -> Result<NoteForm, Refused>
    ensures form { Says (form_tree pool.new) result
        (form_only (form_behind known.now.headings.now known.now.lemmas.now
        (kind_of kind) text.now)) }
    ensures is_in { IfOk result (IsFormIn pool.new) }
    ensures grows { Grows pool.old pool.new }
{
    let Some((_, rest)) = word(text) else {
        return Err(Refused::Broken(Rule::BadNote));
    };
    match read_form(alloc, pool, known, kind, rest) {
        Ok((form, _)) => Ok(form),
        Err(lack) => Err(refusal_of(lack)),
    }
}

// What a note says where it may stand there.
fn read(
    sites: &Sites<'_>,
    pool: &mut TermPool,
    headings: &Headings,
    taken: &Taken,
    note: &Placed,
) -> Result<NoteForm, Refused>
    requires last { sites.now.last_end ≡ last_end 0 sites.now.deck.now.units }
    requires marks { AreMarksOf sites.now.deck.now.notes sites.now.asserts }
    ensures form { Says (form_tree pool.new) result (read_as sites.now.deck.now taken.now
        headings.now note.now (word_of_note note.now)) }
    ensures is_in { IfOk result (IsFormIn pool.new) }
    ensures grows { Grows pool.old pool.new }
{
    let text = note.text.as_slice();
    let Some(kind) = note_word(text) else {
        return Err(Refused::Broken(Rule::BadNote));
    };
    if !is_placed(sites, taken.bounded, kind, note) {
        return Err(Refused::Broken(Rule::BadNote));
    }
    if is_repeated(taken, kind, note.unit) {
        return Err(Refused::Broken(Rule::NoInputOrOutput));
    }
    let known = Known {
        headings,
        lemmas: &taken.lemmas,
    };
    let form = read_behind(sites.alloc, pool, &known, kind, text);
    let Known {
        headings: _,
        lemmas: _,
    } = known;
    form
}

/// What a note says, where it breaks no rule; its definition is then behind the others. `sites` are
/// of the deck, with the roles of the names of the note's unit.
pub fn judged(
    sites: &Sites<'_>,
    pool: &mut TermPool,
    definitions: &mut Definitions,
    taken: &Taken,
    note: &Placed,
) -> Result<NoteForm, Refused>
    requires last { sites.now.last_end ≡ last_end 0 sites.now.deck.now.units }
    requires marks { AreMarksOf sites.now.deck.now.notes sites.now.asserts }
    requires roles { AreRolesOf (unit_of_number sites.now.deck.now.units note.now.unit) sites.now.roles }
    ensures says { Says (λ f. judged_note note.now (form_tree pool.new f)) result
        (told sites.now.deck.now taken.now (headings_of definitions.old) note.now) }
    ensures is_in { IfOk result (IsFormIn pool.new) }
    ensures grows { Grows pool.old pool.new }
    ensures defined { IfOk result (λ f. definitions.new ≡ definitions.old ++ definitions_in f) }
    ensures added { OnOk result (AreAdded pool.new definitions.old → AreAdded pool.new definitions.new) }
{
    let form = match read(sites, pool, definitions.headings(), taken, note) {
        Ok(form) => form,
        Err(why) => return Err(why),
    };
    if let Some(rule) = broken(pool, &sites.roles, note.text.as_slice(), &form) {
        return Err(Refused::Broken(rule));
    }
    match define(sites.alloc, pool, definitions, &form) {
        Ok(None) => Ok(form),
        Ok(Some(rule)) => Err(Refused::Broken(rule)),
        Err(_) => Err(Refused::Memory),
    }
}
