//! The code of expressions: instructions are pushed one behind the other, and calls are listed in the order of the text.
#![tactic(auto)]

ghost use Rattle.run_coding.specs.Meanings.{PushedIsCode};

mod coding;
mod scope;

pub use coding::{code_actuals, code_of, push_call};
pub use scope::Scope;

/// The instructions that are pushed for an expression stand for its code, where its names have slots
/// and its calls stand at their places. It does nothing.
pub fn pushed_is_code()
    ensures { PushedIsCode }
{}
