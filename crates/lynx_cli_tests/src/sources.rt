//! Sources that are read whole: what the text cases cannot show.
use lynx_cli::{InputFault, read_all};
use std::alloc::Global;
use std::io;
use std::io::Read;

/// Gives a few bytes, and then fails.
#[derive(Drop)]
struct Failing {
    left: usize,
}

impl Read for Failing {
    fn read(&mut self, buffer: &mut [u8]) -> io::Result<usize> {
        if self.left == 0 {
            return Err(io::Error::from(io::ErrorKind::Other));
        }
        self.left -= 1;
        if buffer.is_empty() {
            return Ok(0);
        }
        buffer[0] = b'x';
        Ok(1)
    }
}

/// Is interrupted at each read.
#[derive(Drop)]
struct Interrupted {
    reads: u64,
}

impl Read for Interrupted {
    fn read(&mut self, _: &mut [u8]) -> io::Result<usize> {
        self.reads = self.reads.saturating_add(1);
        Err(io::Error::from(io::ErrorKind::Interrupted))
    }
}

/// Whether a source that is interrupted each time is read a million times, and then given up.
fn is_given_up(alloc: Global) -> bool {
    let mut reader = Interrupted { reads: 0 };
    let fault = read_all(alloc, &mut reader, 4).err();
    fault == Some(InputFault::Read) && reader.reads == 1_000_000
}

#[test]
fn a_source_is_read_a_million_times_at_most(rt: HostRuntime) {
    assert!(rt; is_given_up(rt.alloc()));
}

/// How many bytes of ten are read where so many are wanted.
fn count_read(alloc: Global, limit: usize) -> Result<usize, InputFault> {
    let mut source = b"0123456789".as_slice();
    let bytes = read_all(alloc, &mut source, limit)?;
    Ok(bytes.len())
}

#[test]
fn input_is_read_as_far_as_the_limit(rt: HostRuntime) {
    assert!(rt; count_read(rt.alloc(), 20) == Ok(10));
    assert!(rt; count_read(rt.alloc(), 4) == Ok(4));
}

/// Whether a source fails that gives three bytes of four.
fn is_failed(alloc: Global) -> bool {
    read_all(alloc, &mut Failing { left: 3 }, 4).is_err()
}

#[test]
fn a_read_that_fails_ends_the_input(rt: HostRuntime) {
    assert!(rt; is_failed(rt.alloc()));
}

/// Gives one byte at each read, for ever.
#[derive(Drop)]
struct Dripping;

impl Read for Dripping {
    fn read(&mut self, buffer: &mut [u8]) -> io::Result<usize> {
        if buffer.is_empty() {
            return Ok(0);
        }
        buffer[0] = b'x';
        Ok(1)
    }
}

/// How many bytes are read of a source that gives them one by one.
fn dripped(alloc: Global, limit: usize) -> Result<usize, InputFault> {
    let bytes = read_all(alloc, &mut Dripping, limit)?;
    Ok(bytes.len())
}

#[test]
fn a_limit_is_read_that_the_last_read_reaches(rt: HostRuntime) {
    assert!(rt; dripped(rt.alloc(), 1_000_000) == Ok(1_000_000));
    assert!(rt; dripped(rt.alloc(), 1_000_001) == Err(InputFault::Read));
}
