//! Bytes that are no items.
use crate::port::desk::OneChain;
use crate::port::streams::{SMOOTH, Sink};
use lynx_port::{PortFault, serve};
use std::alloc::Global;
use std::cmp::min;
use std::io;
use std::io::Read;

/// Gives so many pseudo-random bytes, each like a tag where `tags` is set.
#[derive(Drop)]
struct Noise {
    state: u64,
    left: usize,
    tags: bool,
}

impl Noise {
    fn next(&mut self) -> u8 {
        self.state ^= self.state << 13;
        self.state ^= self.state >> 7;
        self.state ^= self.state << 17;
        let byte = self.state.to_le_bytes()[5];
        if self.tags { byte % 5 } else { byte }
    }
}

impl Read for Noise {
    fn read(&mut self, buffer: &mut [u8]) -> io::Result<usize> {
        let count = min(buffer.len(), self.left);
        self.left -= count;
        for place in 0..count {
            let byte = self.next();
            buffer[place] = byte;
        }
        Ok(count)
    }
}

/// Whether so many bytes come to a fault of what the client sent.
fn is_faulty(alloc: Global, state: u64, left: usize, tags: bool) -> bool {
    let mut reader = Noise { state, left, tags };
    let mut writer = Sink::new(alloc, SMOOTH);
    let mut desk = OneChain::new(alloc, false);
    let result = serve(alloc, &mut reader, &mut writer, &mut desk);
    matches!(result, Err(PortFault::Bad(_) | PortFault::NotAsked))
}

#[test]
fn noise_is_refused(rt: HostRuntime) {
    assert!(rt; is_faulty(rt.alloc(), 1, 1_000_000, false));
    for seed in 1..=1_000u64 {
        assert!(rt;
            is_faulty(rt.alloc(), seed * 0x9e37_79b9, 1_000, false),
            "{seed}"
        );
        assert!(rt;
            is_faulty(rt.alloc(), seed * 0x9e37_79b9, 1_000, true),
            "{seed}"
        );
    }
}
