// Ends that fail at each call, up to the last one.
use edge_io::{MemSink, MemSource, Sink, Source};
use prover_box::Prover;
use std::alloc::Global;
use std::test::Fail;
use vcg_top::{Status, vcg};

// Two decks: one with conditions, and one with a fault.
const DECKS: [(&[u8], Status); 2] = [
    (
        b"      SUBROUTINE INC(I)
C$ INPUT (DEFINED I) (ZLESSP I 100)
C$ OUTPUT (EQUAL I (ZPLUS (OLD I) 1))
      I = I + 1
      RETURN
      END
",
        Status::Done,
    ),
    (b"      I = I + 1\n", Status::Refused),
];

/// Calls the program with the word `vc` and no prover.
pub fn call(alloc: Global, source: &mut MemSource, sink: &mut MemSink) -> Result<Status, Fail> {
    let mut provers = Vec::new(alloc);
    call_with(alloc, source, sink, &mut provers)
}

/// Calls the program with the word `vc`.
pub fn call_with(
    alloc: Global,
    source: &mut MemSource,
    sink: &mut MemSink,
    provers: &mut Vec<Box<dyn Prover>>,
) -> Result<Status, Fail> {
    let words = vec![in alloc; String::from_str(alloc, "vc")?]?;
    Ok(vcg(alloc, words.as_slice(), source, sink, provers))
}

/// A source that gives so many bytes a call, and fails at the listed calls.
pub fn source_of(
    alloc: Global,
    deck: &[u8],
    fails: &[u64],
    most: usize,
) -> Result<MemSource, Fail> {
    Ok(MemSource::slow(alloc, deck, fails, most.max(1)).map_err(|_| "no memory")?)
}

/// A sink that takes one byte a call, and fails at the listed calls.
pub fn sink_of(alloc: Global, fails: &[u64]) -> Result<MemSink, Fail> {
    Ok(MemSink::slow(alloc, 10_000, fails, 1).map_err(|_| "no memory")?)
}

// The text that is written where no end fails.
fn text_of(alloc: Global, deck: &[u8], wanted: Status) -> Result<Vec<u8>, Fail> {
    let mut source = source_of(alloc, deck, &[], 10_000)?;
    let mut sink = sink_of(alloc, &[])?;
    if call(alloc, &mut source, &mut sink)? != wanted {
        return Err(Fail::from("another status"));
    }
    Ok(Vec::from_slice(alloc, sink.bytes())?)
}

// At which call of `read` in a deck none fails any more; at each earlier one nothing is written.
fn reads(alloc: Global, deck: &[u8], wanted: Status) -> Result<u64, Fail> {
    for k in 1..1000 {
        let mut source = source_of(alloc, deck, &[k], 10)?;
        let mut sink = sink_of(alloc, &[])?;
        let status = call(alloc, &mut source, &mut sink)?;
        if source.faults() == 0 {
            return if status == wanted {
                Ok(k)
            } else {
                Err(Fail::from("another status"))
            };
        }
        if status != Status::ReadFault || !sink.bytes().is_empty() {
            return Err(Fail::from("a fault that is not told, or something is written"));
        }
    }
    Err(Fail::from("a fault at every call"))
}

#[test]
fn a_failing_read_leaves_nothing_written(rt: HostRuntime) -> Result<(), Fail> {
    for (deck, status) in DECKS {
        let calls = deck.len() as u64 / 10 + 1;
        assert!(rt; reads(rt.alloc(), deck, status)? > calls);
    }
    Ok(())
}

// Whether a write that fails at call k leaves the front part of a text.
fn leaves_front(alloc: Global, deck: &[u8], text: &[u8], k: u64) -> Result<bool, Fail> {
    let mut source = source_of(alloc, deck, &[], 10_000)?;
    let mut sink = sink_of(alloc, &[k])?;
    let status = call(alloc, &mut source, &mut sink)?;
    Ok(
        status == Status::WriteFault
            && sink.faults() == 1
            && (sink.bytes().len() as u64).saturating_add(1) == k
            && text.starts_with(sink.bytes()),
    )
}

#[test]
fn a_failing_write_leaves_a_front_part(rt: HostRuntime) -> Result<(), Fail> {
    let alloc = rt.alloc();
    for (deck, status) in DECKS {
        let text = text_of(alloc, deck, status)?;
        for k in 1..text.len() as u64 + 1 {
            assert!(rt; leaves_front(alloc, deck, &text, k)?);
        }
    }
    Ok(())
}
