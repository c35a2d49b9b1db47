//! Connections that would go on for ever.
use crate::port::desk::OneChain;
use crate::port::streams::{SMOOTH, Sink, Source};
use lynx_port::{PortFault, serve};
use std::alloc::Global;
use std::io;
use std::io::{ErrorKind, Read, Write};

/// A look.
const LOOK: [u8; 15] = [2, 0, 0, 0, 10, 0, 0, 0, 0, 0, 0, 0, 0, 0, 0];

/// Is interrupted at each call.
#[derive(Drop)]
struct Interrupted {
    calls: u32,
}

impl Interrupted {
    fn call(&mut self) -> io::Error {
        self.calls = self.calls.saturating_add(1);
        io::Error::from(ErrorKind::Interrupted)
    }
}

impl Read for Interrupted {
    fn read(&mut self, _: &mut [u8]) -> io::Result<usize> {
        Err(self.call())
    }
}

impl Write for Interrupted {
    fn write(&mut self, _: &[u8]) -> io::Result<usize> {
        Err(self.call())
    }

    fn flush(&mut self) -> io::Result<()> {
        Ok(())
    }
}

/// Gives look behind look, a byte at each read.
#[derive(Drop)]
struct Looks {
    place: usize,
    /// The most bytes that a read asked for.
    most: usize,
}

impl Read for Looks {
    fn read(&mut self, buffer: &mut [u8]) -> io::Result<usize> {
        self.most = self.most.max(buffer.len());
        if buffer.is_empty() {
            return Ok(0);
        }
        buffer[0] = LOOK.get(self.place).copied().unwrap_or(0);
        self.place = (self.place.saturating_add(1)) % 15;
        Ok(1)
    }
}

/// Whether a reader that is interrupted each time is asked a million times.
fn are_reads_given_up(alloc: Global) -> bool {
    let mut reader = Interrupted { calls: 0 };
    let mut writer = Sink::new(alloc, SMOOTH);
    let mut desk = OneChain::new(alloc, false);
    let result = serve(alloc, &mut reader, &mut writer, &mut desk);
    result == Err(PortFault::Turns) && reader.calls == 1_000_000 && writer.bytes.is_empty()
}

/// Whether a writer that is interrupted each time is asked again until, with the one read, a
/// million turns are made.
fn are_writes_given_up(alloc: Global) -> bool {
    let mut reader = Source::new(&LOOK, SMOOTH);
    let mut writer = Interrupted { calls: 0 };
    let mut desk = OneChain::new(alloc, false);
    let result = serve(alloc, &mut reader, &mut writer, &mut desk);
    result == Err(PortFault::Turns) && writer.calls == 1_000_000 && desk.asked == 1
}

/// Whether a client that looks for ever is answered as far as a million reads of one byte go.
fn are_looks_given_up(alloc: Global) -> bool {
    let mut reader = Looks { place: 0, most: 0 };
    let mut writer = Sink::new(alloc, SMOOTH);
    let mut desk = OneChain::new(alloc, false);
    let result = serve(alloc, &mut reader, &mut writer, &mut desk);
    result == Err(PortFault::Turns)
        && reader.most == 4_096
        && desk.asked == 66_666
        && writer.bytes.len() == 66_666 * 6
}

#[test]
fn turns_run_out(rt: HostRuntime) {
    assert!(rt; are_reads_given_up(rt.alloc()));
    assert!(rt; are_writes_given_up(rt.alloc()));
    assert!(rt; are_looks_given_up(rt.alloc()));
}
