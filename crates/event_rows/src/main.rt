//! The program `event_rows`: rows of event text that is read. The word of a row says what is asked:
//!
//! - `read`: the answer is what was read, written again; or the fault, with status 1.
//! - `definitions`: the answer has a line for each definition that was read, with its name, and `plain` or `counting`; or it
//!   is the fault, with status 1.
//! - `fronts`: the answer has a line for each front of whole lines, beginning with the empty one, with its length and what
//!   comes of reading it, `Ok` or the fault.
//!
//! A fault is `BadEvent` and the place that it tells.
#![tactic(auto)]

mod definitions;
mod fronts;
mod outcomes;
mod written;

use crate::definitions::put_definitions;
use crate::fronts::put_fronts;
use crate::outcomes::put_fault;
use crate::written::put_written;
use anyhow::{Result, bail};
use edge_io::Keys;
use event_reading::read_events;
use formula::TermPool;
use std::alloc::Global;
use test_rows::{Answer, Subject, try_rows};

/// The reader of event text.
struct Reader;

// Puts what was read of a text, or the fault. The answer is the status.
fn put_read(alloc: Global, text: &mut Vec<u8>, input: &[u8]) -> Result<u8> {
    let keys = Keys::of(input);
    let mut pool = TermPool::new(alloc, keys);
    match read_events(alloc, keys, &mut pool, input) {
        Ok(events) => {
            put_written(alloc, text, &pool, &events)?;
            Ok(0)
        }
        Err(fault) => {
            put_fault(alloc, text, fault)?;
            Ok(1)
        }
    }
}

// Puts the definitions of a text, or the fault. The answer is the status.
fn put_kinds(alloc: Global, text: &mut Vec<u8>, input: &[u8]) -> Result<u8> {
    let keys = Keys::of(input);
    let mut pool = TermPool::new(alloc, keys);
    match read_events(alloc, keys, &mut pool, input) {
        Ok(events) => {
            put_definitions(text, &events.definitions)?;
            Ok(0)
        }
        Err(fault) => {
            put_fault(alloc, text, fault)?;
            Ok(1)
        }
    }
}

impl Subject for Reader {
    fn answer(&self, alloc: Global, words: &[String], input: &[u8]) -> Result<Answer> {
        let [word] = words else {
            bail!("one word is wanted");
        };
        let mut text = Vec::new(alloc);
        let status = match word.as_bytes() {
            b"read" => put_read(alloc, &mut text, input)?,
            b"definitions" => put_kinds(alloc, &mut text, input)?,
            b"fronts" => {
                put_fronts(alloc, &mut text, input)?;
                0
            }
            _ => bail!("a word that asks nothing"),
        };
        Ok(Answer { status, text })
    }
}

fn main(rt: HostRuntime) -> Result<()> {
    try_rows(&rt, &Reader)
}
