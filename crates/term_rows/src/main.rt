//! The program `term_rows`: rows of terms. A row has no words, and a line of its text is one of
//!
//! - `DEFN name params = term`, which adds a definition, with a second term where it counts;
//! - `SET symbol = value`, which gives a symbol a value: a number, `T`, `F`, `U` for undefined, or cells in brackets;
//! - `TERM = text`, which asks for the term that the text begins with, and where it ends if the text goes on;
//! - `WORTH turns = text`, which asks what a term is worth with so many turns.
//!
//! The answer has a line for each: `added`, `set`, the term, the value, or the fault.
#![tactic(auto)]

mod terms;
mod values;
mod worths;

use crate::worths::put_answers;
use anyhow::{Result, ensure};
use std::alloc::Global;
use test_rows::{Answer, Subject, try_rows};

/// The reader of terms, and their evaluation.
struct Reader;

impl Subject for Reader {
    fn answer(&self, alloc: Global, words: &[String], input: &[u8]) -> Result<Answer> {
        ensure!(words.is_empty(), "words that ask nothing");
        let mut text = Vec::new(alloc);
        put_answers(alloc, &mut text, input)?;
        Ok(Answer { status: 0, text })
    }
}

fn main(rt: HostRuntime) -> Result<()> {
    try_rows(&rt, &Reader)
}
