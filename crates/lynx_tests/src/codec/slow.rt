//! The rules of encodings, read slowly from a table of fields, by no code of the feed's.
use lynx_codec::DecodeFault;
use std::slice::Iter;

/// The kinds of fields.
#[derive(Clone, Copy)]
enum Field {
    /// A byte, at most that.
    Byte(u8),
    /// A whole number.
    Word,
    /// A whole number below 2^62.
    Stamp,
    /// A count, at most that, and words.
    Words(u8),
    /// A count from 1 to 8, and servers with words, servers rising.
    Numbers,
    /// A count, at most 8, and lists of at most 16 words.
    Lists,
}

use Field::{Byte, Lists, Numbers, Stamp, Word, Words};

const NOTHING: &[Field] = &[];

const REQUEST: &[Field] = &[Word, Word, Byte(63), Words(8)];

const LOOK: &[Field] = &[Byte(15), Word, Byte(255)];

const BEGUN: &[Field] = &[Byte(15), Word, Stamp, Byte(1), Words(16)];

const REFUSED: &[Field] = &[Byte(15), Stamp, Byte(1)];

const FOUND: &[Field] = &[Stamp, Words(16)];

const MESSAGE: &[Field] = &[
    Byte(15),
    Word,
    Byte(63),
    Byte(255),
    Stamp,
    Words(8),
    Numbers,
    Lists,
];

const BEGUN_ENTRY: &[Field] = &[
    Word,
    Word,
    Byte(63),
    Words(8),
    Stamp,
    Byte(15),
    Word,
    Numbers,
    Stamp,
    Words(16),
];

const REFUSED_ENTRY: &[Field] = &[Word, Word, Byte(63), Words(8), Stamp, Byte(15), Stamp];

const HOP_ENTRY: &[Field] = &[
    Byte(15),
    Word,
    Byte(63),
    Byte(255),
    Stamp,
    Words(8),
    Numbers,
    Lists,
    Stamp,
    Words(16),
];

fn read_byte(bytes: &mut Iter<'_, u8>) -> Result<u8, DecodeFault> {
    bytes.next().copied().ok_or(DecodeFault::BadLength)
}

fn read_word(bytes: &mut Iter<'_, u8>) -> Result<u64, DecodeFault> {
    let mut word = 0u64;
    for _ in 0..8u8 {
        let byte = read_byte(bytes)?;
        word = word.wrapping_mul(256).wrapping_add(u64::from(byte));
    }
    Ok(word)
}

fn read_words(bytes: &mut Iter<'_, u8>, most: u8) -> Result<(), DecodeFault> {
    let count = read_byte(bytes)?;
    if most < count {
        return Err(DecodeFault::OutOfRange);
    }
    for _ in 0..count {
        let _ = read_word(bytes)?;
    }
    Ok(())
}

fn read_numbers(bytes: &mut Iter<'_, u8>) -> Result<(), DecodeFault> {
    let count = read_byte(bytes)?;
    if count == 0 || 8 < count {
        return Err(DecodeFault::OutOfRange);
    }
    let mut last = None;
    for _ in 0..count {
        let server = read_byte(bytes)?;
        if 15 < server || !is_above(server, last) {
            return Err(DecodeFault::OutOfRange);
        }
        last = Some(server);
        let _ = read_word(bytes)?;
    }
    Ok(())
}

fn is_above(server: u8, last: Option<u8>) -> bool {
    match last {
        None => true,
        Some(before) => before < server,
    }
}

fn read_lists(bytes: &mut Iter<'_, u8>) -> Result<(), DecodeFault> {
    let count = read_byte(bytes)?;
    if 8 < count {
        return Err(DecodeFault::OutOfRange);
    }
    for _ in 0..count {
        read_words(bytes, 16)?;
    }
    Ok(())
}

fn read_field(bytes: &mut Iter<'_, u8>, field: Field) -> Result<(), DecodeFault> {
    match field {
        Byte(most) => within(u64::from(read_byte(bytes)?), u64::from(most)),
        Word => within(read_word(bytes)?, u64::MAX),
        Stamp => within(read_word(bytes)?, 0x3fff_ffff_ffff_ffff),
        Words(most) => read_words(bytes, most),
        Numbers => read_numbers(bytes),
        Lists => read_lists(bytes),
    }
}

fn within(number: u64, most: u64) -> Result<(), DecodeFault> {
    if number <= most {
        Ok(())
    } else {
        Err(DecodeFault::OutOfRange)
    }
}

/// The fields of a body, or, of an answer, of what follows its first byte.
fn fields_of(tag: u8, bytes: &mut Iter<'_, u8>) -> Result<&'static [Field], DecodeFault> {
    match tag {
        0x01 => Ok(REQUEST),
        0x02 => Ok(LOOK),
        0x11 => match read_byte(bytes)? {
            0 => Ok(BEGUN),
            8 => Ok(REFUSED),
            1..=11 => Ok(NOTHING),
            _ => Err(DecodeFault::OutOfRange),
        },
        0x12 => match read_byte(bytes)? {
            0 => Ok(NOTHING),
            1 => Ok(FOUND),
            _ => Err(DecodeFault::OutOfRange),
        },
        0x21 => Ok(MESSAGE),
        0x22 => Ok(BEGUN_ENTRY),
        0x23 => Ok(REFUSED_ENTRY),
        0x24 => Ok(HOP_ENTRY),
        _ => Ok(NOTHING),
    }
}

fn read_body(tag: u8, body: &[u8]) -> Result<(), DecodeFault> {
    let mut bytes = body.iter();
    for field in fields_of(tag, &mut bytes)? {
        read_field(&mut bytes, *field)?;
    }
    match bytes.next() {
        None => Ok(()),
        Some(_) => Err(DecodeFault::BadLength),
    }
}

/// What stands at the front of some bytes.
#[derive(Clone, Copy)]
pub enum Slow {
    /// An encoding of so many bytes.
    Encoding(usize),
    /// Neither a whole encoding nor a fault.
    Nothing,
    Fault(DecodeFault),
}

/// Behind a tag.
fn read_sized(tag: u8, bytes: &[u8]) -> Slow {
    let mut rest = bytes.iter();
    let mut size = 0usize;
    for _ in 0..4u8 {
        match rest.next() {
            None => return Slow::Nothing,
            Some(byte) => size = size.wrapping_mul(256).wrapping_add(usize::from(*byte)),
        }
    }
    if 2_048 < size {
        return Slow::Fault(DecodeFault::BadLength);
    }
    let encoding = 5 + size;
    match bytes.get(4..4 + size) {
        None => Slow::Nothing,
        Some(body) => match read_body(tag, body) {
            Ok(()) => Slow::Encoding(encoding),
            Err(fault) => Slow::Fault(fault),
        },
    }
}

/// Reads what stands at the front.
pub fn read_slowly(bytes: &[u8]) -> Slow {
    match bytes {
        [] => Slow::Nothing,
        [tag @ (1..=4 | 0x11..=0x13 | 0x21..=0x24), rest @ ..] => read_sized(*tag, rest),
        [_, ..] => Slow::Fault(DecodeFault::BadTag),
    }
}
