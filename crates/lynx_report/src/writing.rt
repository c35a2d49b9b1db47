//! Writing bytes of a run, a verdict, a picture or a script.
ghost use Rattle.std.specs.Prelude.{◌≡◌, IfErr, OnErr, OnOk};
ghost use Rattle.std.specs.Io.KnownBytes.{Appends};
ghost use Rattle.lynx_report.specs.Written.{AppendsPart};

use crate::run::RunFault;
use std::io::Write;

/// Writes the bytes. Where it fails, a beginning of them is written.
pub fn write_bytes<W: Write>(writer: &mut W, bytes: &[u8]) -> Result<(), RunFault>
    ensures all { OnOk result (Appends (W.contents writer.old) (W.contents writer.new) bytes.now) }
    ensures part { OnErr result (AppendsPart (W.contents writer.old) (W.contents writer.new)
        bytes.now) }
    ensures fault { IfErr result (λ fault. fault ≡ RunFault.Write) }
{
    match lynx_lines::write_bytes(writer, bytes) {
        Ok(()) => Ok(()),
        Err(_) => Err(RunFault::Write),
    }
}
