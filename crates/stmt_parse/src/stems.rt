// Words that a refusal looks for.
ghost use Rattle.std.specs.Prelude.{◌≡◌, ◌≤◌, length, map, option_map, Some};
ghost use Rattle.fort_syntax.specs.Misspelled.{first_word, size_of, excluded_words, pointed_words};
ghost use Rattle.stmt_parse.specs.Stems.{stem_text};

use crate::tokens::begins;
use formula::Word;
use fort_syntax::Dialect;

/// A word that is left out of the language, or a word in points.
#[derive(Clone, Copy, Debug, PartialEq, Eq)]
pub enum Stem {
    Then,
    Else,
    EndIf,
    Real,
    DoublePrecision,
    Complex,
    Character,
    Read,
    Write,
    Print,
    Format,
    Open,
    Close,
    Inquire,
    Rewind,
    Backspace,
    EndFile,
    Equivalence,
    Data,
    BlockData,
    External,
    Intrinsic,
    Implicit,
    Parameter,
    Save,
    Entry,
    Assign,
    Stop,
    Pause,
    Program,
    PointedLt,
    PointedLe,
    PointedEq,
    PointedNe,
    PointedGe,
    PointedGt,
    PointedNot,
    PointedAnd,
    PointedOr,
    PointedTrue,
    PointedFalse,
}

/// The words that both dialects leave out.
static ALWAYS: [Stem; 27] = [
    Stem::Real,
    Stem::DoublePrecision,
    Stem::Complex,
    Stem::Character,
    Stem::Read,
    Stem::Write,
    Stem::Print,
    Stem::Format,
    Stem::Open,
    Stem::Close,
    Stem::Inquire,
    Stem::Rewind,
    Stem::Backspace,
    Stem::EndFile,
    Stem::Equivalence,
    Stem::Data,
    Stem::BlockData,
    Stem::External,
    Stem::Intrinsic,
    Stem::Implicit,
    Stem::Parameter,
    Stem::Save,
    Stem::Entry,
    Stem::Assign,
    Stem::Stop,
    Stem::Pause,
    Stem::Program,
];

/// The words that the plain dialect leaves out.
static PLAIN: [Stem; 30] = [
    Stem::Then,
    Stem::Else,
    Stem::EndIf,
    Stem::Real,
    Stem::DoublePrecision,
    Stem::Complex,
    Stem::Character,
    Stem::Read,
    Stem::Write,
    Stem::Print,
    Stem::Format,
    Stem::Open,
    Stem::Close,
    Stem::Inquire,
    Stem::Rewind,
    Stem::Backspace,
    Stem::EndFile,
    Stem::Equivalence,
    Stem::Data,
    Stem::BlockData,
    Stem::External,
    Stem::Intrinsic,
    Stem::Implicit,
    Stem::Parameter,
    Stem::Save,
    Stem::Entry,
    Stem::Assign,
    Stem::Stop,
    Stem::Pause,
    Stem::Program,
];

/// The words in points.
static POINTED: [Stem; 11] = [
    Stem::PointedLt,
    Stem::PointedLe,
    Stem::PointedEq,
    Stem::PointedNe,
    Stem::PointedGe,
    Stem::PointedGt,
    Stem::PointedNot,
    Stem::PointedAnd,
    Stem::PointedOr,
    Stem::PointedTrue,
    Stem::PointedFalse,
];

impl Stem {
    /// The word.
    pub fn text(self) -> &'static [u8]
        ensures value { result.now ≡ stem_text self }
        ensures short { (1 ≤ length result.now) × (length result.now ≤ 24) }
    {
        match self {
            Stem::Then => b"THEN",
            Stem::Else => b"ELSE",
            Stem::EndIf => b"ENDIF",
            Stem::Real => b"REAL",
            Stem::DoublePrecision => b"DOUBLEPRECISION",
            Stem::Complex => b"COMPLEX",
            Stem::Character => b"CHARACTER",
            Stem::Read => b"READ",
            Stem::Write => b"WRITE",
            Stem::Print => b"PRINT",
            Stem::Format => b"FORMAT",
            Stem::Open => b"OPEN",
            Stem::Close => b"CLOSE",
            Stem::Inquire => b"INQUIRE",
            Stem::Rewind => b"REWIND",
            Stem::Backspace => b"BACKSPACE",
            Stem::EndFile => b"ENDFILE",
            Stem::Equivalence => b"EQUIVALENCE",
            Stem::Data => b"DATA",
            Stem::BlockData => b"BLOCKDATA",
            Stem::External => b"EXTERNAL",
            Stem::Intrinsic => b"INTRINSIC",
            Stem::Implicit => b"IMPLICIT",
            Stem::Parameter => b"PARAMETER",
            Stem::Save => b"SAVE",
            Stem::Entry => b"ENTRY",
            Stem::Assign => b"ASSIGN",
            Stem::Stop => b"STOP",
            Stem::Pause => b"PAUSE",
            Stem::Program => b"PROGRAM",
            Stem::PointedLt => b".LT.",
            Stem::PointedLe => b".LE.",
            Stem::PointedEq => b".EQ.",
            Stem::PointedNe => b".NE.",
            Stem::PointedGe => b".GE.",
            Stem::PointedGt => b".GT.",
            Stem::PointedNot => b".NOT.",
            Stem::PointedAnd => b".AND.",
            Stem::PointedOr => b".OR.",
            Stem::PointedTrue => b".TRUE.",
            Stem::PointedFalse => b".FALSE.",
        }
    }
}

#[tactic(auto, using(crate::proofs::Words::word_found, crate::proofs::Words::word_passed, crate::proofs::Words::no_word_left))]
// The first of these words that begins the text.
fn first_stem(stems: &[Stem], text: &[u8]) -> Option<Stem>
    ensures { option_map stem_text result ≡ first_word (map stem_text stems.now) text.now }
{
    for stem in stems {
        if begins(text, stem.text()) {
            return Some(*stem);
        }
    }
    None
}

// The word as a name of words has it.
fn word_of(stem: Stem) -> Option<Word>
    ensures { result ≡ Some (stem_text stem) }
{
    Word::new(stem.text())
}

// The first of these words that begins the text, as a word.
fn first_word(stems: &[Stem], text: &[u8]) -> Option<Word>
    ensures { result ≡ first_word (map stem_text stems.now) text.now }
{
    let Some(stem) = first_stem(stems, text) else {
        return None;
    };
    word_of(stem)
}

// The word left out of the language that begins the text.
pub(crate) fn excluded(dialect: Dialect, text: &[u8]) -> Option<Word>
    ensures { result ≡ first_word (excluded_words dialect) text.now }
{
    match dialect {
        Dialect::Common => first_word(&PLAIN, text),
        Dialect::SeventySeven => first_word(&ALWAYS, text),
    }
}

// How many bytes the word in points has that begins the text; 0 where none does.
pub(crate) fn pointed_size(text: &[u8]) -> usize
    ensures { result ≡ size_of (first_word pointed_words text.now) }
{
    match first_word(&POINTED, text) {
        Some(word) => word.as_bytes().len(),
        None => 0,
    }
}
