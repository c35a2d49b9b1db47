//! Files that are read whole.
ghost use Rattle.std.specs.Prelude.{◌≡◌, ◌⊎◌, IfOk, IfErr, IfSome, take};
ghost use Rattle.lynx_cli.specs.declared.source.TheConstants.{MAX_FILE_BYTES};

use crate::fault::Fault;
use crate::source::{InputFault, MAX_FILE_BYTES, read_all};
use std::alloc::Global;
use std::fs;
use std::io::Read;
use std::os::unix::fs::FileTypeExt;
use std::rt::Files;

/// Reads the source of this name, as far as a text may reach.
fn read_text<'a, R: Read>(
    alloc: Global,
    name: &'a str,
    source: &mut R,
) -> Result<Vec<u8>, Fault<'a>>
    ensures ok { IfOk result (λ text. IfSome (R.remaining source.old) (λ bytes.
        text.items ≡ take MAX_FILE_BYTES bytes)) }
    ensures err { IfErr result (λ fault. (fault ≡ Fault.Unread (record { name = name.entry }))
        ⊎ (fault ≡ Fault.Memory)) }
{
    match read_all(alloc, source, MAX_FILE_BYTES) {
        Ok(text) => Ok(text),
        Err(fault) => Err(Fault::of_reading(name, fault)),
    }
}

/// Whether a name is that of a pipe in some folder: who opens one waits for its other end. A pipe
/// that is open already, as that behind `/dev/stdin`, has no name in a folder.
pub(crate) fn is_named_pipe<R: Files + AllocGlobal>(rt: &R, name: &str) -> bool {
    match fs::metadata(rt, name) {
        Ok(found) => found.file_type().is_fifo() && fs::canonicalize(rt, name).is_ok(),
        Err(_) => false,
    }
}

/// The text of a file, as far as a text may reach.
pub(crate) fn text_of<'a, R: Files + AllocGlobal>(
    rt: &R,
    name: &'a str,
) -> Result<Vec<u8>, Fault<'a>> {
    if is_named_pipe(rt, name) {
        return Err(Fault::of_reading(name, InputFault::Read));
    }
    let Ok(mut file) = fs::open(rt, name) else {
        return Err(Fault::of_reading(name, InputFault::Read));
    };
    read_text(rt.alloc(), name, &mut file)
}
