//! The program `part_rows`: rows of cards and statements. The first word of a row says what is asked:
//!
//! - `statement 66` or `statement 77`: each line is a text without blanks. The answer is the statement that it spells, in
//!   prefix form, and behind it, where the statement is written by another text, that text; or the rule that it breaks.
//! - `cards`: the text is a deck. The answer is its statements and notes, or its first fault of cards.
#![tactic(auto)]

mod entries;
mod expressions;
mod prefix;
mod statements;
mod texts;

use crate::entries::put_entries;
use crate::texts::put_statements;
use anyhow::{Result, bail};
use fort_syntax::Dialect;
use std::alloc::Global;
use test_rows::{Answer, Subject, try_rows};

/// The readers of cards and of statements.
struct Layers;

// The dialect of a word.
fn dialect(word: &String) -> Result<Dialect> {
    match word.as_bytes() {
        b"66" => Ok(Dialect::Common),
        b"77" => Ok(Dialect::SeventySeven),
        _ => bail!("no dialect"),
    }
}

// Puts the answer to a text.
fn put_answer(alloc: Global, text: &mut Vec<u8>, words: &[String], input: &[u8]) -> Result<()> {
    let [call, rest @ ..] = words else {
        bail!("no word");
    };
    match (call.as_bytes(), rest) {
        (b"statement", [word]) => put_statements(alloc, text, dialect(word)?, input),
        (b"cards", []) => put_entries(alloc, text, input),
        _ => bail!("words that ask nothing"),
    }
}

impl Subject for Layers {
    fn answer(&self, alloc: Global, words: &[String], input: &[u8]) -> Result<Answer> {
        let mut text = Vec::new(alloc);
        put_answer(alloc, &mut text, words, input)?;
        Ok(Answer { status: 0, text })
    }
}

fn main(rt: HostRuntime) -> Result<()> {
    try_rows(&rt, &Layers)
}
