// Ends of std, and ends that are broken.
use edge_io::{Failed, Sink, Source, StdSink, StdSource, write_all};
use std::io::{self, Read, Write};
use std::test::Fail;

#[test]
fn std_ends_are_used(rt: HostRuntime) -> Result<(), Fail> {
    let mut source = StdSource::new(b"xyz".as_slice());
    let mut buf = [0; 2];
    assert_eq!(rt; source.read(&mut buf), Ok(2));
    assert_eq!(rt; source.faults(), 0);
    let mut sink = StdSink::new(Vec::new(rt.alloc()));
    assert!(rt; write_all(&mut sink, &buf).is_ok());
    assert_eq!(rt; sink.faults(), 0);
    Ok(())
}

// A reader that always fails, and a writer that takes nothing.
#[derive(Drop)]
struct Broken;

impl Read for Broken {
    fn read(&mut self, _: &mut [u8]) -> io::Result<usize> {
        Err(io::Error::from(io::ErrorKind::WouldBlock))
    }
}

impl Write for Broken {
    fn write(&mut self, _: &[u8]) -> io::Result<usize> {
        Ok(0)
    }

    fn flush(&mut self) -> io::Result<()> {
        Ok(())
    }
}

#[test]
fn broken_ends_are_counted(rt: HostRuntime) -> Result<(), Fail> {
    let mut source = StdSource::new(Broken);
    assert_eq!(rt; source.read(&mut [0; 2]), Err(Failed));
    assert_eq!(rt; source.faults(), 1);
    let mut sink = StdSink::new(Broken);
    assert_eq!(rt; sink.write(b""), Ok(0));
    assert!(rt; write_all(&mut sink, b"ab").is_err());
    assert_eq!(rt; sink.faults(), 1);
    Ok(())
}
