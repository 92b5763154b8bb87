//! Sources that are read to their end, that fail on the way, and that give little at a time.

use byte_streams::{
    CalmSource, ListSource, READ_LIMIT, ReadEnd, Source, StdSource, Took, read_all,
};
use std::alloc::{AllocError, Global};
use std::io;
use std::test::Fail;

/// Gives one byte at a time.
#[derive(Drop)]
struct ByteSource<'a> {
    bytes: &'a [u8],
}

impl Source for ByteSource<'_> {
    ghost use Rattle.std.specs.Prelude.{Some};

    ghost remaining = { λ s. Some s.bytes.now };

    ghost faults = { λ s. 0 };

    fn take(&mut self, into: &mut [u8]) -> Took {
        let count = self.bytes.len().min(into.len()).min(1);
        let (first, others) = self.bytes.split_at(count);
        into[..count].copy_from_slice(first);
        self.bytes = others;
        Took::Got(count)
    }
}

#[test]
fn one_byte_at_a_time(rt: HostRuntime) -> Result<(), Fail> {
    let mut source = ByteSource {
        bytes: b"{\"steps\":[]}",
    };
    let bytes = read_all(rt.alloc(), &mut source)?;
    assert_eq!(rt; bytes.as_slice(), b"{\"steps\":[]}".as_slice());
    Ok(())
}

/// 10,000 bytes are taken by three calls of at most 4,096 bytes, and a fourth finds the end.
#[test]
fn a_source_fails_at_each_call(rt: HostRuntime) -> Result<(), Fail> {
    let alloc = rt.alloc();
    let text = vec![in alloc; b'7'; 10_000]?;
    for (call, left) in [(0u64, 10_000usize), (1, 5_904), (2, 1_808), (3, 0)] {
        let failing = [call];
        let mut source = ListSource::make(&text, &failing);
        match read_all(alloc, &mut source) {
            Ok(_) => assert!(rt; false, "read at {call}"),
            Err(end) => assert_eq!(rt; end, ReadEnd::Failed, "at {call}"),
        }
        assert_eq!(rt; source.bytes.len(), left, "at {call}");
        assert_eq!(rt; source.faults, 1, "at {call}");
    }
    let failing = [4];
    let mut source = ListSource::make(&text, &failing);
    let bytes = read_all(alloc, &mut source)?;
    assert_eq!(rt; bytes.as_slice(), text.as_slice());
    Ok(())
}

/// What a source of so many spaces comes to: the number of bytes that were read, or why not.
fn read_spaces(alloc: Global, count: usize) -> Result<Result<usize, ReadEnd>, AllocError> {
    let text = vec![in alloc; b' '; count]?;
    let mut source = CalmSource { bytes: &text };
    match read_all(alloc, &mut source) {
        Ok(bytes) => Ok(Ok(bytes.len())),
        Err(end) => Ok(Err(end)),
    }
}

#[test]
fn a_source_may_be_too_long(rt: HostRuntime) -> Result<(), Fail> {
    let alloc = rt.alloc();
    assert_eq!(rt; read_spaces(alloc, READ_LIMIT)?, Ok(READ_LIMIT));
    assert_eq!(rt; read_spaces(alloc, READ_LIMIT + 1)?, Err(ReadEnd::TooLong));
    Ok(())
}

/// Gives four bytes, and then fails.
#[derive(Drop)]
struct Reader {
    reads: u64,
}

impl io::Read for Reader {
    fn read(&mut self, buf: &mut [u8]) -> io::Result<usize> {
        self.reads = self.reads.saturating_add(1);
        if self.reads > 1 {
            return Err(io::Error::from(io::ErrorKind::TimedOut));
        }
        let count = buf.len().min(4);
        buf[..count].fill(b'1');
        Ok(count)
    }
}

#[test]
fn a_reader_of_the_system_counts_its_faults(rt: HostRuntime) -> Result<(), Fail> {
    let alloc = rt.alloc();
    let mut source = StdSource {
        reader: Reader { reads: 0 },
        faults: 0,
    };
    match read_all(alloc, &mut source) {
        Ok(_) => assert!(rt; false),
        Err(end) => assert_eq!(rt; end, ReadEnd::Failed),
    }
    assert_eq!(rt; source.faults, 1);
    let mut source = StdSource {
        reader: b"{}".as_slice(),
        faults: 0,
    };
    let bytes = read_all(alloc, &mut source)?;
    assert_eq!(rt; bytes.as_slice(), b"{}".as_slice());
    assert_eq!(rt; source.faults, 0);
    Ok(())
}
