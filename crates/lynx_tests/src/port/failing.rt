//! Readers and writers that fail at each place, and input that ends at each.
use crate::port::bytes::hex;
use crate::port::streams::{Manner, SMOOTH};
use crate::port::talk::{PLAIN, Setting, talk};
use crate::port::worked::{ENDS, INPUT, WRITTEN};
use lynx_codec::DecodeFault;
use lynx_names::Memory;
use lynx_port::{PortFault, Served};
use std::alloc::Global;

/// How many frames stand in so many bytes of the worked input, where they end, and how many bytes
/// answer them.
fn answered(read: usize) -> (u64, usize, usize) {
    let mut found = (0, 0, 0);
    for (place, &(end, answer)) in ENDS.iter().enumerate() {
        if end <= read {
            found = (place as u64 + 1, end, answer);
        }
    }
    found
}

const ONE: Manner = Manner {
    first: 1,
    piece: 1,
    ..SMOOTH
};

/// Whether a talk comes to this, with so many bytes of what the worked input is answered.
fn is_cut(
    alloc: Global,
    input: &[u8],
    setting: Setting,
    ended: Result<Served, PortFault>,
    written: &[u8],
) -> bool {
    let outcome = talk(alloc, input, setting);
    outcome.result == ended && outcome.written.as_slice() == written
}

/// Whether input that ends inside an item is Short, and a read that fails is Read, with what was
/// whole before answered.
fn are_reads_cut(alloc: Global) -> Result<bool, Memory> {
    let (input, written) = (hex(alloc, &[INPUT])?, hex(alloc, &[WRITTEN])?);
    for read in 0..128u32 {
        let (answers, end, answer) = answered(read as usize);
        let front = input.as_slice().get(..read as usize).unwrap_or(&[]);
        let owed = written.as_slice().get(..answer).unwrap_or(&[]);
        let ended = if end == read as usize {
            Ok(Served {
                answers,
                shut: false,
            })
        } else {
            Err(PortFault::Bad(DecodeFault::Short))
        };
        let failing = Setting {
            reads: Manner { good: read, ..ONE },
            ..PLAIN
        };
        if !is_cut(alloc, front, PLAIN, ended, owed)
            || !is_cut(alloc, input.as_slice(), failing, Err(PortFault::Read), owed)
        {
            return Ok(false);
        }
    }
    Ok(true)
}

#[test]
fn reads_that_end_and_fail(rt: HostRuntime) {
    assert!(rt; are_reads_cut(rt.alloc()) == Ok(true));
}

/// Whether a write that fails, or takes nothing, is Write, with all before it written.
fn are_writes_cut(alloc: Global) -> Result<bool, Memory> {
    let (input, written) = (hex(alloc, &[INPUT])?, hex(alloc, &[WRITTEN])?);
    for count in 0..82u32 {
        let owed = written.as_slice().get(..count as usize).unwrap_or(&[]);
        let failing = Setting {
            writes: Manner { good: count, ..ONE },
            ..PLAIN
        };
        if !is_cut(
            alloc,
            input.as_slice(),
            failing,
            Err(PortFault::Write),
            owed,
        ) {
            return Ok(false);
        }
    }
    for first in 0..25 {
        let owed = written.as_slice().get(..first).unwrap_or(&[]);
        let writes = Manner {
            first,
            piece: 0,
            ..SMOOTH
        };
        let taking_none = Setting { writes, ..PLAIN };
        if !is_cut(
            alloc,
            input.as_slice(),
            taking_none,
            Err(PortFault::Write),
            owed,
        ) {
            return Ok(false);
        }
    }
    Ok(true)
}

#[test]
fn writes_that_fail(rt: HostRuntime) {
    assert!(rt; are_writes_cut(rt.alloc()) == Ok(true));
}
