// The form of a note.
ghost use Rattle.std.specs.Prelude.{◌≡◌, IfOk};
ghost use Rattle.formula.specs.Pool.{Grows};
ghost use Rattle.fort_notes.specs.Forms.{assertion_form, plain_form, counting_form, proof_form};
ghost use Rattle.fort_notes.specs.Parts.{parsed};
ghost use Rattle.note_parts.specs.Answers.{Gives};
ghost use Rattle.note_places.specs.Places.{kind_of};
ghost use Rattle.note_reading.specs.NoteTrees.{form_tree, form_by, input_form, output_form, IsFormIn};

use crate::NoteForm;
use formula::{Headings, NameTable, TermPool};
use note_forms::{
    asserted, bound, counting_definition, plain_definition, proof_card, run_card, terms, try_card,
};
use note_parts::Lack;
use note_places::NoteWord;
use std::alloc::Global;

/// What is known before a note: the headings of the definitions, and the conditions that have
/// certificates.
pub struct Known<'a> {
    pub headings: &'a Headings,
    pub lemmas: &'a NameTable,
}

// DEFN.
fn plain_note<'a>(
    alloc: Global,
    pool: &mut TermPool,
    headings: &Headings,
    text: &'a [u8],
) -> Result<(NoteForm, &'a [u8]), Lack>
    ensures form { Gives (λ r. parsed (form_tree pool.new r.0) r.1.now) result
        (plain_form headings.now text.now) }
    ensures is_in { IfOk result (λ r. IsFormIn pool.new r.0) }
    ensures grows { Grows pool.old pool.new }
{
    match plain_definition(alloc, pool, headings, text) {
        Ok((x, rest)) => Ok((NoteForm::Definition(x), rest)),
        Err(lack) => Err(lack),
    }
}

// DEFR.
fn counting_note<'a>(
    alloc: Global,
    pool: &mut TermPool,
    headings: &Headings,
    text: &'a [u8],
) -> Result<(NoteForm, &'a [u8]), Lack>
    ensures form { Gives (λ r. parsed (form_tree pool.new r.0) r.1.now) result
        (counting_form headings.now text.now) }
    ensures is_in { IfOk result (λ r. IsFormIn pool.new r.0) }
    ensures grows { Grows pool.old pool.new }
{
    match counting_definition(alloc, pool, headings, text) {
        Ok((x, rest)) => Ok((NoteForm::Definition(x), rest)),
        Err(lack) => Err(lack),
    }
}

// INPUT.
fn input_note<'a>(
    alloc: Global,
    pool: &mut TermPool,
    headings: &Headings,
    text: &'a [u8],
) -> Result<(NoteForm, &'a [u8]), Lack>
    ensures form { Gives (λ r. parsed (form_tree pool.new r.0) r.1.now) result
        (input_form headings.now text.now) }
    ensures is_in { IfOk result (λ r. IsFormIn pool.new r.0) }
    ensures grows { Grows pool.old pool.new }
{
    match terms(alloc, pool, headings, text) {
        Ok((x, rest)) => Ok((NoteForm::Input(x), rest)),
        Err(lack) => Err(lack),
    }
}

// OUTPUT.
fn output_note<'a>(
    alloc: Global,
    pool: &mut TermPool,
    headings: &Headings,
    text: &'a [u8],
) -> Result<(NoteForm, &'a [u8]), Lack>
    ensures form { Gives (λ r. parsed (form_tree pool.new r.0) r.1.now) result
        (output_form headings.now text.now) }
    ensures is_in { IfOk result (λ r. IsFormIn pool.new r.0) }
    ensures grows { Grows pool.old pool.new }
{
    match terms(alloc, pool, headings, text) {
        Ok((x, rest)) => Ok((NoteForm::Output(x), rest)),
        Err(lack) => Err(lack),
    }
}

// ASSERT.
fn assert_note<'a>(
    alloc: Global,
    pool: &mut TermPool,
    headings: &Headings,
    text: &'a [u8],
) -> Result<(NoteForm, &'a [u8]), Lack>
    ensures form { Gives (λ r. parsed (form_tree pool.new r.0) r.1.now) result
        (assertion_form headings.now text.now) }
    ensures is_in { IfOk result (λ r. IsFormIn pool.new r.0) }
    ensures grows { Grows pool.old pool.new }
{
    match asserted(alloc, pool, headings, text) {
        Ok((x, rest)) => Ok((NoteForm::Assertion(x), rest)),
        Err(lack) => Err(lack),
    }
}

// PROOF.
fn proof_note<'a>(
    alloc: Global,
    pool: &mut TermPool,
    headings: &Headings,
    lemmas: &NameTable,
    text: &'a [u8],
) -> Result<(NoteForm, &'a [u8]), Lack>
    ensures form { Gives (λ r. parsed (form_tree pool.new r.0) r.1.now) result
        (proof_form headings.now lemmas.now text.now) }
    ensures is_in { IfOk result (λ r. IsFormIn pool.new r.0) }
    ensures grows { Grows pool.old pool.new }
{
    match proof_card(alloc, pool, headings, lemmas, text) {
        Ok((x, rest)) => Ok((NoteForm::Proof(x), rest)),
        Err(lack) => Err(lack),
    }
}

/// What stands behind the first word of a note, and the text behind it.
pub fn read_form<'a>(
    alloc: Global,
    pool: &mut TermPool,
    known: &Known<'_>,
    word: NoteWord,
    text: &'a [u8],
) -> Result<(NoteForm, &'a [u8]), Lack>
    ensures form { Gives (λ r. parsed (form_tree pool.new r.0) r.1.now) result
        (form_by known.now.headings.now known.now.lemmas.now (kind_of word) text.now) }
    ensures is_in { IfOk result (λ r. IsFormIn pool.new r.0) }
    ensures grows { Grows pool.old pool.new }
{
    match word {
        NoteWord::Bound => match bound(text) {
            Ok((b, rest)) => Ok((NoteForm::Bound(b), rest)),
            Err(lack) => Err(lack),
        },
        NoteWord::PlainDefinition => plain_note(alloc, pool, known.headings, text),
        NoteWord::CountingDefinition => counting_note(alloc, pool, known.headings, text),
        NoteWord::Input => input_note(alloc, pool, known.headings, text),
        NoteWord::Output => output_note(alloc, pool, known.headings, text),
        NoteWord::Assert => assert_note(alloc, pool, known.headings, text),
        NoteWord::Run => match run_card(alloc, text) {
            Ok((card, rest)) => Ok((NoteForm::Run(card), rest)),
            Err(lack) => Err(lack),
        },
        NoteWord::Try => match try_card(alloc, pool.keys(), text) {
            Ok((card, rest)) => Ok((NoteForm::Try(card), rest)),
            Err(lack) => Err(lack),
        },
        NoteWord::Proof => proof_note(alloc, pool, known.headings, known.lemmas, text),
    }
}
