//! A reader and a writer in memory, which take their bytes in pieces, are interrupted and fail as
//! they are told.
ghost use Rattle.std.specs.Prelude.{◌≤◌, IfOk};

use std::alloc::Global;
use std::cmp::min;
use std::io;
use std::io::{ErrorKind, Read, Write};

/// How a stream goes.
#[derive(Clone, Copy)]
pub struct Manner {
    /// Bytes that the first call takes, at most.
    pub first: usize,
    /// Bytes that each further call takes, at most.
    pub piece: usize,
    /// As many calls succeed; those behind them fail.
    pub good: u32,
    /// Whether each other call is interrupted, beginning with the first.
    pub interrupted: bool,
}

/// All goes through at once.
pub const SMOOTH: Manner = Manner {
    first: usize::MAX,
    piece: usize::MAX,
    good: u32::MAX,
    interrupted: false,
};

/// The calls of a stream.
#[derive(Drop)]
struct Calls {
    manner: Manner,
    made: u32,
}

impl Calls {
    fn new(manner: Manner) -> Calls {
        Calls { manner, made: 0 }
    }

    /// How many of so many bytes the next call takes.
    fn next(&mut self, most: usize) -> io::Result<usize>
        ensures { IfOk result (λ count. count ≤ most) }
    {
        self.made = self.made.wrapping_add(1);
        if self.manner.interrupted && self.made % 2 == 1 {
            return Err(io::Error::from(ErrorKind::Interrupted));
        }
        if self.manner.good == 0 {
            return Err(io::Error::from(ErrorKind::Other));
        }
        self.manner.good -= 1;
        let count = min(self.manner.first, most);
        self.manner.first = self.manner.piece;
        Ok(count)
    }
}

/// Gives its bytes.
#[derive(Drop)]
pub struct Source<'a> {
    rest: &'a [u8],
    calls: Calls,
}

impl<'a> Source<'a> {
    pub fn new(bytes: &'a [u8], manner: Manner) -> Source<'a> {
        Source {
            rest: bytes,
            calls: Calls::new(manner),
        }
    }
}

impl<'a> Read for Source<'a> {
    fn read(&mut self, buffer: &mut [u8]) -> io::Result<usize> {
        let count = self.calls.next(min(buffer.len(), self.rest.len()))?;
        let (mut piece, rest) = self.rest.split_at(count);
        self.rest = rest;
        piece.read(buffer)
    }
}

/// Keeps what is written.
#[derive(Drop)]
pub struct Sink {
    pub bytes: Vec<u8>,
    calls: Calls,
}

impl Sink {
    pub fn new(alloc: Global, manner: Manner) -> Sink {
        Sink {
            bytes: Vec::new(alloc),
            calls: Calls::new(manner),
        }
    }
}

impl Write for Sink {
    fn write(&mut self, bytes: &[u8]) -> io::Result<usize> {
        let count = self.calls.next(bytes.len())?;
        match self.bytes.extend_from_slice(bytes.split_at(count).0) {
            Ok(()) => Ok(count),
            Err(_) => Err(io::Error::from(ErrorKind::OutOfMemory)),
        }
    }

    fn flush(&mut self) -> io::Result<()> {
        Ok(())
    }
}
