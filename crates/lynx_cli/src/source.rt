//! Sources that are read whole.
ghost use Rattle.std.specs.Prelude.{◌≡◌, ◌≤◌, IfSome, IfOk, length, take};

use lynx_names::Memory;
use std::alloc::{AllocError, Global};
use std::io::Read;
use thiserror::Error;

/// As many bytes are read at most: a set text, the line between, and a script with one byte too
/// many.
pub const MAX_INPUT_BYTES: usize = 131_076;

/// As many bytes of a file are read at most: a text, and one byte too many.
pub const MAX_FILE_BYTES: usize = 65_537;

/// A source that needs more reads than this can't be read.
const MAX_READS: u32 = 1_000_000;

/// Why a source was not read.
#[derive(Clone, Copy, Debug, PartialEq, Eq, Error)]
pub enum InputFault {
    #[error("cannot read")]
    Read,
    #[error("out of memory")]
    Memory,
}

impl From<Memory> for InputFault {
    ghost use Rattle.std.specs.Prelude.{◌≡◌};
    ghost use Rattle.lynx_cli.specs.declared.source.InputFault.TheVariants.{Memory as NoMemory};

    ghost from_gives = { λ _ fault. fault ≡ NoMemory };

    fn from(_: Memory) -> InputFault {
        InputFault::Memory
    }
}

impl From<AllocError> for InputFault {
    ghost use Rattle.std.specs.Prelude.{◌≡◌};
    ghost use Rattle.lynx_cli.specs.declared.source.InputFault.TheVariants.{Memory as NoMemory};

    ghost from_gives = { λ _ fault. fault ≡ NoMemory };

    fn from(_: AllocError) -> InputFault {
        InputFault::Memory
    }
}

/// Reads to the end, or as far as the limit. Interrupted reads are tried again. It is
/// `InputFault::Read` where the source fails, or would need more than 1,000,000 reads.
pub fn read_all<R: Read>(alloc: Global, reader: &mut R, limit: usize) -> Result<Vec<u8>, InputFault>
    ensures within { IfOk result (λ bytes. length bytes.items ≤ limit) }
    ensures known { IfOk result (λ bytes. IfSome (R.remaining reader.old) (λ source.
        bytes.items ≡ take limit source)) }
{
    let mut bytes = Vec::new(alloc);
    let mut buffer = [0u8; 4096];
    for _ in 0..MAX_READS {
        let room = limit.saturating_sub(bytes.len()).min(buffer.len());
        if room == 0 {
            return Ok(bytes);
        }
        let count = match reader.read(&mut buffer[..room]) {
            Ok(count) => count,
            Err(error) if error.kind() == std::io::ErrorKind::Interrupted => continue,
            Err(_) => return Err(InputFault::Read),
        };
        if count == 0 {
            return Ok(bytes);
        }
        bytes.extend_from_slice(&buffer[..count])?;
    }
    if bytes.len() < limit {
        Err(InputFault::Read)
    } else {
        Ok(bytes)
    }
}
