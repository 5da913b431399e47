// What the code of the statements of a unit is.
ghost use Rattle.run_made.specs.Laws.{LinesAreCode, LinesHaveSlots};

use run_lines::stmt_pushed_is_code;

/// The instructions that are pushed for the statements of a unit stand for their code. It does nothing.
pub fn lines_are_code()
    ensures { LinesAreCode }
{
    stmt_pushed_is_code();
}

/// No slot in these instructions is out of range. It does nothing.
pub fn lines_have_slots()
    ensures { LinesHaveSlots }
{}
