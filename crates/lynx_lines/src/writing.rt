//! Writing bytes out, to any writer, with what stands where it fails.
ghost use Rattle.std.specs.Prelude.{◌≡◌, ◌++◌, ℕ, List, IfOk, OnErr, OnOk};
ghost use Rattle.std.specs.Io.KnownBytes.{Appends, Keeps};
ghost use Rattle.lynx_lines.specs.Written.{AppendsPart};

use std::io::{ErrorKind, Write};

/// The writer failed, or took no byte.
#[derive(Clone, Copy, Debug, PartialEq, Eq)]
pub struct WriteFailed;

/// Writes some of the bytes, and gives those that are left.
fn write_some<'a, W: Write>(writer: &mut W, bytes: &'a [u8]) -> Result<&'a [u8], WriteFailed>
    ensures some { IfOk result (λ left. (part : List ℕ) × (bytes.now ≡ part ++ left.now)
        × Appends (W.contents writer.old) (W.contents writer.new) part) }
    ensures none { OnErr result (Keeps (W.contents writer.old) (W.contents writer.new)) }
{
    match writer.write(bytes) {
        Ok(0) => Err(WriteFailed),
        Ok(taken) => Ok(&bytes[taken..]),
        Err(fault) if fault.kind() == ErrorKind::Interrupted => Ok(bytes),
        Err(_) => Err(WriteFailed),
    }
}

/// Writes the bytes, and goes on after an interruption. Where it fails, a beginning of them is
/// written: what `write_all` leaves open.
pub fn write_bytes<W: Write>(writer: &mut W, bytes: &[u8]) -> Result<(), WriteFailed>
    ensures all { OnOk result (Appends (W.contents writer.old) (W.contents writer.new) bytes.now) }
    ensures part { OnErr result (AppendsPart (W.contents writer.old) (W.contents writer.new)
        bytes.now) }
{
    let mut rest = bytes;
    for _ in 0..u64::MAX {
        if rest.is_empty() {
            return Ok(());
        }
        rest = write_some(writer, rest)?;
    }
    Err(WriteFailed)
}
