// The statement that a text spells.
ghost use Rattle.std.specs.Prelude.{◌≡◌, length};
ghost use Rattle.fort_syntax.specs.Grammar.{is_deep_from, is_deep};
ghost use Rattle.fort_syntax.specs.Misspelled.{refusal_of};
ghost use Rattle.stmt_parse.specs.Parsing.{Gives};
ghost use Rattle.stmt_parse.specs.Statements.{by_word, found, statement_of};
ghost use Rattle.stmt_parse.specs.Answers.{Answers, TextSpellsOneStatement};

use crate::Lack;
use crate::declarations::{declaration, head};
use crate::executable::{assign, other, plain};
use crate::misspelled::{is_deep, refusal_of};
use fort_syntax::{Dialect, Rule, Stmt};
use std::alloc::Global;

/// Why there is no statement.
#[derive(Clone, Copy, Debug, PartialEq, Eq)]
pub enum StmtRefusal {
    /// The text spells none; the rule of 7 to 11 that it breaks.
    Breaks(Rule),
    /// No memory for the statement.
    NoMemory,
}

#[tactic(auto, unfolding(crate::specs::Statements::by_word))]
// A statement that is no assignment.
fn by_word(alloc: Global, dialect: Dialect, rounds: usize, text: &[u8]) -> Result<Stmt, Lack>
    ensures { Gives (λ s. s) result (by_word dialect rounds text.now) }
{
    match plain(alloc, rounds, text) {
        Ok(stmt) => return Ok(stmt),
        Err(Lack::Memory) => return Err(Lack::Memory),
        Err(Lack::Spelling) => {}
    }
    match head(alloc, rounds, text) {
        Ok(stmt) => return Ok(stmt),
        Err(Lack::Memory) => return Err(Lack::Memory),
        Err(Lack::Spelling) => {}
    }
    match declaration(alloc, rounds, text) {
        Ok(stmt) => return Ok(stmt),
        Err(Lack::Memory) => return Err(Lack::Memory),
        Err(Lack::Spelling) => {}
    }
    other(alloc, dialect, rounds, text)
}

#[tactic(auto, unfolding(crate::specs::Statements::found))]
fn found(alloc: Global, dialect: Dialect, rounds: usize, text: &[u8]) -> Result<Stmt, Lack>
    ensures { Gives (λ s. s) result (found dialect rounds text.now) }
{
    match assign(alloc, rounds, text) {
        Ok(stmt) => return Ok(stmt),
        Err(Lack::Memory) => return Err(Lack::Memory),
        Err(Lack::Spelling) => {}
    }
    by_word(alloc, dialect, rounds, text)
}

#[tactic(auto, unfolding(crate::specs::Statements::statement_of))]
fn statement_of(alloc: Global, dialect: Dialect, text: &[u8]) -> Result<Stmt, Lack>
    ensures { Gives (λ s. s) result (statement_of dialect text.now) }
{
    if is_deep(text) {
        return Err(Lack::Spelling);
    }
    found(alloc, dialect, text.len() + 2, text)
}

#[tactic(auto, using(crate::proofs::StatementsAgree::none_is_spelled))]
/// The statement that a text without blanks and in upper case spells, or the rule that the text
/// breaks.
pub fn statement(alloc: Global, dialect: Dialect, text: &[u8]) -> Result<Stmt, StmtRefusal>
    ensures { Answers dialect text.now result }
{
    match statement_of(alloc, dialect, text) {
        Ok(stmt) => Ok(stmt),
        Err(Lack::Memory) => Err(StmtRefusal::NoMemory),
        Err(Lack::Spelling) => Err(StmtRefusal::Breaks(refusal_of(dialect, text))),
    }
}

/// A text spells at most one statement. It does nothing.
pub fn text_spells_one_statement()
    ensures { TextSpellsOneStatement }
{}
