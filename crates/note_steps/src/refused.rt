// Why a note is refused.
ghost use Rattle.std.specs.Prelude.{◌≡◌, Err};
ghost use Rattle.fort_notes.specs.Forms.{Form};
ghost use Rattle.fort_notes.specs.Parts.{Parsed};
ghost use Rattle.note_parts.specs.Answers.{Fails};
ghost use Rattle.note_steps.specs.Steps.{Says, form_only};

use fort_syntax::Rule;
use note_parts::Lack;

/// Why a note is refused.
#[derive(Clone, Copy, Debug, PartialEq, Eq)]
pub enum Refused {
    /// It breaks a rule.
    Broken(Rule),
    /// Memory was wanted and not had.
    Memory,
}

// What a part that was not read says of its note.
pub(crate) fn refusal_of(lack: Lack) -> Refused
    ensures { (p : Parsed Form) → Fails lack p → Says (λ (f : Form). f) (Err result) (form_only p) }
{
    match lack {
        Lack::Form => Refused::Broken(Rule::BadNote),
        Lack::Function => Refused::Broken(Rule::UnknownNoteName),
        Lack::Memory => Refused::Memory,
    }
}
