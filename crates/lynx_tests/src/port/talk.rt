//! A talk of a client with a desk of one chain.
use crate::port::bytes::hex;
use crate::port::desk::OneChain;
use crate::port::streams::{Manner, SMOOTH, Sink, Source};
use lynx_names::Memory;
use lynx_port::{PortFault, Served, serve};
use std::alloc::Global;

/// How the client's bytes come, how those to it are taken, and whether memory is wanting to the
/// desk.
#[derive(Clone, Copy)]
pub struct Setting {
    pub reads: Manner,
    pub writes: Manner,
    pub lacks: bool,
}

pub const PLAIN: Setting = Setting {
    reads: SMOOTH,
    writes: SMOOTH,
    lacks: false,
};

/// What came of a talk.
#[derive(Drop)]
pub struct Outcome {
    pub result: Result<Served, PortFault>,
    pub written: Vec<u8>,
    /// How often the desk was asked.
    pub asked: u32,
}

pub fn talk(alloc: Global, input: &[u8], setting: Setting) -> Outcome {
    let mut reader = Source::new(input, setting.reads);
    let mut writer = Sink::new(alloc, setting.writes);
    let mut desk = OneChain::new(alloc, setting.lacks);
    let result = serve(alloc, &mut reader, &mut writer, &mut desk);
    Outcome {
        result,
        written: writer.bytes,
        asked: desk.asked,
    }
}

/// What a talk is to come to; what is written, in hex digits.
#[derive(Clone, Copy)]
pub struct Expected {
    pub result: Result<Served, PortFault>,
    pub written: &'static str,
    pub asked: u32,
}

/// Whether this input, texts of hex digits, comes to that.
pub fn comes_to(
    alloc: Global,
    input: &[&str],
    setting: Setting,
    expected: Expected,
) -> Result<bool, Memory> {
    let input = hex(alloc, input)?;
    let written = hex(alloc, &[expected.written])?;
    let outcome = talk(alloc, input.as_slice(), setting);
    Ok(
        outcome.result == expected.result
            && outcome.written.as_slice() == written.as_slice()
            && outcome.asked == expected.asked,
    )
}
