//! What is told of stores that are given to a set.
ghost use Rattle.std.specs.Prelude.{OnOk};
ghost use Rattle.std.specs.Io.KnownBytes.{Appends};
ghost use Rattle.lynx_give.specs.Lines.{given_line, made_line};

use itoa::Buffer;
use lynx_lines::{WriteFailed, write_bytes};
use lynx_names::ServerId;
use lynx_store::Extended;
use std::io::Write;

/// Writes the line `made N` of a store that was made for a new server. It takes no memory.
pub(crate) fn write_made<W: Write>(server: ServerId, writer: &mut W) -> Result<(), WriteFailed>
    ensures { OnOk result
        (Appends (W.contents writer.old) (W.contents writer.new) (made_line server)) }
{
    let mut digits = Buffer::new();
    write_bytes(writer, b"made ")?;
    write_bytes(writer, digits.format(server.number()).as_bytes())?;
    write_bytes(writer, b"\n")?;
    Ok(())
}

/// Writes the line `extended N ENTRIES` of a store that is of the set now, or `same N` where it was
/// of this very set: N the server, ENTRIES the count of its entries. It takes no memory.
pub(crate) fn write_given<W: Write>(
    server: ServerId,
    done: Extended,
    writer: &mut W,
) -> Result<(), WriteFailed>
    ensures { OnOk result
        (Appends (W.contents writer.old) (W.contents writer.new) (given_line server done)) }
{
    let mut digits = Buffer::new();
    if done.was_same {
        write_bytes(writer, b"same ")?;
        write_bytes(writer, digits.format(server.number()).as_bytes())?;
        write_bytes(writer, b"\n")?;
        return Ok(());
    }
    write_bytes(writer, b"extended ")?;
    write_bytes(writer, digits.format(server.number()).as_bytes())?;
    write_bytes(writer, b" ")?;
    write_bytes(writer, digits.format(done.entries).as_bytes())?;
    write_bytes(writer, b"\n")?;
    Ok(())
}
