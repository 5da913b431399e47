// A deck that is too long.
use crate::ends::{call, sink_of, source_of};
use edge_io::Source;
use std::test::Fail;
use vcg_top::Status;

#[test]
fn a_deck_that_is_too_long_is_read_up_to_one_byte_more(rt: HostRuntime) -> Result<(), Fail> {
    let deck = vec![in rt.alloc(); b'\n'; 1_048_580]?;
    let mut source = source_of(rt.alloc(), &deck, &[], 10_000)?;
    let mut sink = sink_of(rt.alloc(), &[])?;
    assert_eq!(rt; call(rt.alloc(), &mut source, &mut sink)?, Status::Refused);
    assert_eq!(rt; sink.bytes(), b"REFUSED 1 TooLong CARD 1\n".as_slice());
    let mut left = [0; 10];
    assert_eq!(rt; source.read(&mut left), Ok(3));
    Ok(())
}
