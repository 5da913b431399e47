//! The program `vcg_rows`: rows of calls of `vcg`, with the words, the deck, and the status and the text that are wanted.
#![tactic(auto)]

use anyhow::Result;
use edge_io::{MemSink, MemSource, NoMemory};
use prover_box::{Ground, Prover, Subsumed};
use std::alloc::Global;
use test_rows::{Answer, Subject, try_rows};
use vcg_top::vcg;

/// The most bytes that a call may write.
const ROOM: usize = 1 << 20;

/// The top call over memory, with the provers that the program lends.
struct TopCall;

impl Subject for TopCall {
    fn answer(&self, alloc: Global, words: &[String], input: &[u8]) -> Result<Answer> {
        let mut provers: Vec<Box<dyn Prover>> = Vec::new(alloc);
        let ground = Box::new(alloc, Ground::new())?;
        provers.push(ground).map_err(|_| NoMemory)?;
        let subsumed = Box::new(alloc, Subsumed::new(alloc))?;
        provers.push(subsumed).map_err(|_| NoMemory)?;
        let mut source = MemSource::new(alloc, input, &[])?;
        let mut sink = MemSink::new(alloc, ROOM, &[])?;
        let status = vcg(alloc, words, &mut source, &mut sink, &mut provers).number();
        let text = Vec::from_slice(alloc, sink.bytes())?;
        Ok(Answer { status, text })
    }
}

fn main(rt: HostRuntime) -> Result<()> {
    try_rows(&rt, &TopCall)
}
