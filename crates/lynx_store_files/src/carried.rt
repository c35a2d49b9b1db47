//! The file that closes the books of a folder.
ghost use Rattle.std.specs.Prelude.{◌≡◌, ◌++◌, codes, IfOk};
ghost use Rattle.std.specs.String.{string_bytes};

use crate::presence::fault_of;
use lynx_names::Memory;
use lynx_store::StoreFault;
use std::alloc::Global;
use std::fs;
use std::io::ErrorKind;
use std::rt::Files;

/// The path of the file by which `lynx carry` closes the books of the folder.
pub fn carried_path(alloc: Global, folder: &str) -> Result<String, Memory>
    ensures { IfOk result (λ path. string_bytes path ≡ folder.now ++ codes "/carried") }
{
    match format!(in alloc; "{folder}/carried") {
        Ok(path) => Ok(path),
        Err(_) => Err(Memory),
    }
}

/// Whether stores of the folder may be open for writing: Store where its books are closed. A link
/// that leads nowhere closes them, too, and so does what the system can't tell of.
pub(crate) fn check_carried<R: Files + AllocGlobal>(
    rt: &R,
    folder: &str,
) -> Result<(), StoreFault> {
    let path = carried_path(rt.alloc(), folder)?;
    match fs::symlink_metadata(rt, path.as_str()) {
        Ok(_) => Err(StoreFault::Store),
        Err(error) if error.kind() == ErrorKind::NotFound => Ok(()),
        Err(error) => Err(fault_of(error)),
    }
}
