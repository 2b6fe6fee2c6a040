//! Each public call once where it succeeds, and streams that fail in the middle.

use super::*;
use std::io::{self, ErrorKind, Read};
use std::test::Fail;

/// A reader of which every read fails.
#[derive(Drop)]
struct BrokenReader;

impl Read for BrokenReader {
    fn read(&mut self, _buf: &mut [u8]) -> io::Result<usize> {
        Err(io::Error::from(ErrorKind::BrokenPipe))
    }
}

#[test]
fn sources_are_read(rt: HostRuntime) -> Result<(), Fail> {
    let bytes = [7u8; 5000].to_vec(rt.alloc())?;
    let mut source = MemorySource::new(bytes, Vec::new(rt.alloc()));
    let all = read_all(rt.alloc(), &mut source, 5000)?;
    assert_eq!(rt; all.as_slice(), [7u8; 5000].as_slice());

    let bytes = [7u8; 5000].to_vec(rt.alloc())?;
    let mut source = MemorySource::new(bytes, Vec::new(rt.alloc()));
    let longer = read_all(rt.alloc(), &mut source, 4999);
    assert!(rt; longer == Err(ReadAllFault::TooLong));

    let bytes = [7u8; 5000].to_vec(rt.alloc())?;
    let mut source = MemorySource::new(bytes, vec![in rt.alloc(); 1]?);
    let failed = read_all(rt.alloc(), &mut source, 5000);
    assert!(rt; failed == Err(ReadAllFault::ReadFault));
    assert_eq!(rt; read_all(rt.alloc(), &mut source, 5000)?.len(), 904);
    Ok(())
}

#[test]
fn sinks_are_written(rt: HostRuntime) -> Result<(), Fail> {
    let mut sink = MemorySink::new(rt.alloc(), 8, 3, Vec::new(rt.alloc()))
        .ok()
        .ok_or("memory")?;
    write_all(&mut sink, b"abcdefg")?;
    assert_eq!(rt; sink.bytes(), b"abcdefg".as_slice());
    let full = write_all(&mut sink, b"hi");
    assert!(rt; full == Err(WriteFault { written: 1 }));
    assert_eq!(rt; sink.bytes(), b"abcdefgh".as_slice());

    let failing = vec![in rt.alloc(); 1]?;
    let mut sink = MemorySink::new(rt.alloc(), 8, 3, failing)
        .ok()
        .ok_or("memory")?;
    let failed = write_all(&mut sink, b"abcdefg");
    assert!(rt; failed == Err(WriteFault { written: 3 }));
    assert_eq!(rt; sink.bytes(), b"abc".as_slice());
    Ok(())
}

#[test]
fn standard_streams_are_adapted(rt: HostRuntime) -> Result<(), Fail> {
    let mut source = StdSource::new(b"abc".as_slice());
    assert_eq!(rt;
        read_all(rt.alloc(), &mut source, 9)?.as_slice(),
        b"abc".as_slice()
    );
    let mut broken = StdSource::new(BrokenReader);
    assert!(rt; read_all(rt.alloc(), &mut broken, 9) == Err(ReadAllFault::ReadFault));

    let mut sink = StdSink::new(Vec::new(rt.alloc()));
    write_all(&mut sink, b"abc")?;
    let mut room = [0u8; 2];
    let mut short = StdSink::new(room.as_mut_slice());
    assert!(rt; write_all(&mut short, b"abc") == Err(WriteFault { written: 2 }));
    Ok(())
}
