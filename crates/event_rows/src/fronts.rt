// The fronts of a text that are whole lines.
use crate::outcomes::put_fault;
use anyhow::Result;
use edge_io::Keys;
use event_reading::read_events;
use formula::TermPool;
use std::alloc::Global;

// Puts the line of a front.
fn put_front(alloc: Global, text: &mut Vec<u8>, front: &[u8]) -> Result<()> {
    let length = front.len();
    text.extend_from_slice(format!(in alloc; "{length} ")?.as_bytes())?;
    let keys = Keys::of(front);
    let mut pool = TermPool::new(alloc, keys);
    match read_events(alloc, keys, &mut pool, front) {
        Ok(_) => Ok(text.extend_from_slice(b"Ok\n")?),
        Err(fault) => put_fault(alloc, text, fault),
    }
}

/// Puts a line for each front of whole lines: its length, and what comes of reading it.
pub(crate) fn put_fronts(alloc: Global, text: &mut Vec<u8>, input: &[u8]) -> Result<()> {
    put_front(alloc, text, b"")?;
    for place in 0..input.len() {
        if input[place] == b'\n' {
            put_front(alloc, text, &input[..place + 1])?;
        }
    }
    Ok(())
}
