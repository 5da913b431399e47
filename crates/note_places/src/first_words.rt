// The first word of a note.
ghost use Rattle.std.specs.Prelude.{◌≡◌, option_map};
ghost use Rattle.fort_notes.specs.Parts.{word};
ghost use Rattle.fort_notes.specs.Judging.{word_named, word_if, is_that};
ghost use Rattle.fort_notes.specs.Judging as judging;
ghost use Rattle.note_places.specs.Places.{kind_of};

use formula::is_same;
use note_parts::word;

/// What a note is by its first word.
#[derive(Clone, Copy, Debug, PartialEq, Eq)]
pub enum NoteWord {
    Bound,
    PlainDefinition,
    CountingDefinition,
    Input,
    Output,
    Assert,
    Run,
    Try,
    Proof,
}

// What a word stands for at the beginning of a note.
fn word_named(atom: &[u8]) -> Option<NoteWord>
    ensures { option_map kind_of result ≡ word_named atom.now }
{
    if is_same(b"BOUND", atom) {
        return Some(NoteWord::Bound);
    }
    if is_same(b"DEFN", atom) {
        return Some(NoteWord::PlainDefinition);
    }
    if is_same(b"DEFR", atom) {
        return Some(NoteWord::CountingDefinition);
    }
    if is_same(b"INPUT", atom) {
        return Some(NoteWord::Input);
    }
    if is_same(b"OUTPUT", atom) {
        return Some(NoteWord::Output);
    }
    if is_same(b"ASSERT", atom) {
        return Some(NoteWord::Assert);
    }
    if is_same(b"RUN", atom) {
        return Some(NoteWord::Run);
    }
    if is_same(b"TRY", atom) {
        return Some(NoteWord::Try);
    }
    if is_same(b"PROOF", atom) {
        return Some(NoteWord::Proof);
    }
    None
}

/// What a note is by the first word of its text, where it is one of these.
pub fn note_word(text: &[u8]) -> Option<NoteWord>
    ensures { option_map kind_of result ≡ word_if (word text.now) }
{
    let Some((atom, _)) = word(text) else {
        return None;
    };
    word_named(atom)
}

/// Whether a text begins with INPUT.
pub fn begins_with_input(text: &[u8]) -> bool
    ensures { result ≡ is_that judging.Input (word_if (word text.now)) }
{
    match note_word(text) {
        Some(NoteWord::Input) => true,
        Some(
            NoteWord::Bound
            | NoteWord::PlainDefinition
            | NoteWord::CountingDefinition
            | NoteWord::Output
            | NoteWord::Assert
            | NoteWord::Run
            | NoteWord::Try
            | NoteWord::Proof,
        ) => false,
        None => false,
    }
}

/// Whether a text begins with OUTPUT.
pub fn begins_with_output(text: &[u8]) -> bool
    ensures { result ≡ is_that judging.Output (word_if (word text.now)) }
{
    match note_word(text) {
        Some(NoteWord::Output) => true,
        Some(
            NoteWord::Bound
            | NoteWord::PlainDefinition
            | NoteWord::CountingDefinition
            | NoteWord::Input
            | NoteWord::Assert
            | NoteWord::Run
            | NoteWord::Try
            | NoteWord::Proof,
        ) => false,
        None => false,
    }
}

/// Whether a text begins with ASSERT.
pub fn begins_with_assert(text: &[u8]) -> bool
    ensures { result ≡ is_that judging.Assert (word_if (word text.now)) }
{
    match note_word(text) {
        Some(NoteWord::Assert) => true,
        Some(
            NoteWord::Bound
            | NoteWord::PlainDefinition
            | NoteWord::CountingDefinition
            | NoteWord::Input
            | NoteWord::Output
            | NoteWord::Run
            | NoteWord::Try
            | NoteWord::Proof,
        ) => false,
        None => false,
    }
}
