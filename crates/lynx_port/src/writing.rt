//! The port's own loop over `write`, which counts turns.
ghost use Rattle.std.specs.Prelude.{◌≡◌, ◌≤◌, OnOk, IfErr, IsErrOf};
ghost use Rattle.std.specs.Io.KnownBytes.{Appends};
ghost use Rattle.lynx_port.specs.inner.Steps.{CutsShort};

use crate::fault::PortFault;
use std::io::{ErrorKind, Write};

/// Writes all the bytes of an encoding. A write that was interrupted is made again, if there are
/// turns left. After a fault a front of the bytes is written.
pub fn write_encoding<W: Write>(
    writer: &mut W,
    encoding: &[u8],
    turns: &mut u32,
) -> Result<(), PortFault>
    ensures turns { turns.new ≤ turns.old }
    ensures spent { IsErrOf result PortFault.Turns → turns.new ≡ 0 }
    ensures all { OnOk result (Appends (W.contents writer.old) (W.contents writer.new)
        encoding.now) }
    ensures part { IfErr result
        (CutsShort (W.contents writer.old) (W.contents writer.new) encoding.now) }
{
    let mut rest = encoding;
    while !rest.is_empty() {
        match writer.write(rest) {
            Ok(0) => return Err(PortFault::Write),
            Ok(count) => rest = rest.split_at(count).1,
            Err(error) if error.kind() == ErrorKind::Interrupted => {
                if *turns == 0 {
                    return Err(PortFault::Turns);
                }
                *turns -= 1;
            }
            Err(_) => return Err(PortFault::Write),
        }
    }
    Ok(())
}
