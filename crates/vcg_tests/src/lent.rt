// Provers that are lent to the top call: marks, lines and counts.
use crate::ends::{call_with, sink_of, source_of};
use crate::objects::{Never, Quiet};
use edge_io::MemSink;
use prover_box::{Ground, Prover, Subsumed};
use std::alloc::Global;
use std::test::Fail;
use vcg_top::Status;

const INC: &[u8] = b"      SUBROUTINE INC(I)
C$ INPUT (DEFINED I) (ZLESSP I 100)
C$ OUTPUT (EQUAL I (ZPLUS (OLD I) 1))
      I = I + 1
      RETURN
      END
";

// The lines of its conditions, without their marks.
const LINES: [&[u8]; 3] = [
    b"(PROVE-LEMMA INC-1-1 NIL (IMPLIES (AND (ZLEQ LEAST -32767) (ZLEQ 32767 GREATEST) (CELLI I-IN LEAST GREATEST) (DEFINED I-IN) (ZLESSP I-IN 100)) (DEFINED I-IN))) ; DEFINED CARD 4 ",
    b"(PROVE-LEMMA INC-1-2 NIL (IMPLIES (AND (ZLEQ LEAST -32767) (ZLEQ 32767 GREATEST) (CELLI I-IN LEAST GREATEST) (DEFINED I-IN) (ZLESSP I-IN 100) (DEFINED I-IN)) (AND (ZLEQ LEAST (ZPLUS I-IN 1)) (ZLEQ (ZPLUS I-IN 1) GREATEST)))) ; RANGE CARD 4 ",
    b"(PROVE-LEMMA INC-1-3 NIL (IMPLIES (AND (ZLEQ LEAST -32767) (ZLEQ 32767 GREATEST) (CELLI I-IN LEAST GREATEST) (DEFINED I-IN) (ZLESSP I-IN 100) (DEFINED I-IN) (AND (ZLEQ LEAST (ZPLUS I-IN 1)) (ZLEQ (ZPLUS I-IN 1) GREATEST))) (EQUAL (ZPLUS I-IN 1) (ZPLUS I-IN 1)))) ; OUTPUT CARD 5 ",
];

// The text with these marks, and the lines behind those of conditions.
fn text_of(alloc: Global, marks: [u8; 3], last: &[u8]) -> Result<Vec<u8>, Fail> {
    let mut text = Vec::new(alloc);
    for i in 0..3 {
        text.extend_from_slice(LINES[i]).map_err(|_| "no memory")?;
        text.push(marks[i]).map_err(|_| "no memory")?;
        text.push(b'\n').map_err(|_| "no memory")?;
    }
    text.extend_from_slice(last).map_err(|_| "no memory")?;
    Ok(text)
}

// What is written for INC.
fn written(alloc: Global, provers: &mut Vec<Box<dyn Prover>>) -> Result<MemSink, Fail> {
    let mut source = source_of(alloc, INC, &[], 10_000)?;
    let mut sink = sink_of(alloc, &[])?;
    if call_with(alloc, &mut source, &mut sink, provers)? != Status::Done {
        return Err(Fail::from("another status"));
    }
    Ok(sink)
}

// How often a prover was asked.
fn asked_of(prover: &Box<dyn Prover>) -> u64 {
    prover.asked()
}

#[test]
fn with_no_prover_no_mark_is_a_letter(rt: HostRuntime) -> Result<(), Fail> {
    let alloc = rt.alloc();
    let mut provers = Vec::new(alloc);
    let sink = written(alloc, &mut provers)?;
    let wanted = text_of(alloc, [b'-', b'-', b'-'], b"; 3 CONDITIONS\n")?;
    assert_eq!(rt; sink.bytes(), wanted.as_slice());
    Ok(())
}

#[test]
fn a_prover_that_tells_no_test_marks_what_it_closes(rt: HostRuntime) -> Result<(), Fail> {
    let alloc = rt.alloc();
    let mut provers: Vec<Box<dyn Prover>> = Vec::new(alloc);
    let quiet = Box::new(alloc, Quiet::new(alloc))?;
    provers.push(quiet).map_err(|_| "no memory")?;
    let sink = written(alloc, &mut provers)?;
    let wanted = text_of(alloc, [b'Y', b'-', b'Y'], b"; ASKED Y 3\n; 3 CONDITIONS\n")?;
    assert_eq!(rt; sink.bytes(), wanted.as_slice());
    match provers.as_slice() {
        [quiet] => assert_eq!(rt; asked_of(quiet), 3),
        _ => return Err(Fail::from("another number of provers")),
    }
    Ok(())
}

#[test]
fn a_prover_behind_others_is_asked_for_what_they_leave(rt: HostRuntime) -> Result<(), Fail> {
    let alloc = rt.alloc();
    let mut provers: Vec<Box<dyn Prover>> = Vec::new(alloc);
    let ground = Box::new(alloc, Ground::new())?;
    provers.push(ground).map_err(|_| "no memory")?;
    let subsumed = Box::new(alloc, Subsumed::new(alloc))?;
    provers.push(subsumed).map_err(|_| "no memory")?;
    let never = Box::new(alloc, Never::new())?;
    provers.push(never).map_err(|_| "no memory")?;
    let sink = written(alloc, &mut provers)?;
    let wanted = text_of(
        alloc,
        [b'S', b'-', b'S'],
        b"; ASKED G 3\n; ASKED S 3\n; ASKED N 1\n; 3 CONDITIONS\n",
    )?;
    assert_eq!(rt; sink.bytes(), wanted.as_slice());
    match provers.as_slice() {
        [ground, subsumed, never] => {
            assert_eq!(rt; asked_of(ground), 3);
            assert_eq!(rt; asked_of(subsumed), 3);
            assert_eq!(rt; asked_of(never), 1);
        }
        _ => return Err(Fail::from("another number of provers")),
    }
    Ok(())
}
