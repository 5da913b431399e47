// The pieces in which texts go out.
use edge_io::{Keys, List, MemSink};
use event_text::{Marks, WritingStack, write_events};
use formula::{Definitions, TermPool};
use std::alloc::Global;
use std::test::Fail;

// Provers whose lines take 12 bytes each.
fn provers(alloc: Global, count: usize) -> Result<List<(u8, u64)>, Fail> {
    let mut asked = Vec::new(alloc);
    for _ in 0..count {
        asked.push((b'G', 1))?;
    }
    Ok(List::from_vec(asked))
}

// Writes 8,415 bytes, and answers whether that went well and how many bytes were written.
fn written(alloc: Global, fails: &[u64]) -> Result<(bool, usize), Fail> {
    let asked = provers(alloc, 700)?;
    let mut sink = MemSink::new(alloc, 10_000, fails).map_err(|_| "no memory")?;
    let pool = TermPool::new(alloc, Keys::new(1, 2));
    let definitions = Definitions::new(alloc, Keys::new(1, 2));
    let conditions = List::from_vec(Vec::new(alloc));
    let letters = List::from_vec(Vec::new(alloc));
    let mut stack = WritingStack::new(alloc, &pool).map_err(|_| "no memory")?;
    let ok = write_events(
        &mut sink,
        &pool,
        &definitions,
        &conditions,
        &Marks { letters, asked },
        &mut stack,
    )
    .is_ok();
    Ok((ok, sink.bytes().len()))
}

#[test]
fn a_text_goes_out_in_pieces(rt: HostRuntime) -> Result<(), Fail> {
    assert_eq!(rt; written(rt.alloc(), &[2])?, (false, 4096));
    assert_eq!(rt; written(rt.alloc(), &[3])?, (false, 2 * 4096));
    assert_eq!(rt; written(rt.alloc(), &[4])?, (true, 8415));
    Ok(())
}
