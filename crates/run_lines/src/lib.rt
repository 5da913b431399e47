//! The code of statements.
#![tactic(auto)]

ghost use Rattle.run_lines.specs.Stated.{StmtPushedIsCode};

mod draft;
mod forms;
mod stating;

pub use draft::Draft;
pub use stating::{Lines, Spot, code_stmt};

/// The instructions that are pushed for a statement stand for its code, where its names have slots,
/// its calls and targets stand at their places, and the flow goes on as it is to go on. It does nothing.
pub fn stmt_pushed_is_code()
    ensures { StmtPushedIsCode }
{}
