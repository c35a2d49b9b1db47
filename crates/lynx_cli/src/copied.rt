//! The folder that is to follow a service.
use crate::fault::Fault;
use lynx_service::{CopyWord, ServeFault};
use std::fs;
use std::os::unix::fs::MetadataExt;

/// Whether two paths lead to one folder. Where one of them leads nowhere they don't: who opens it
/// tells so.
fn is_same_folder(rt: &HostRuntime, folder: &str, other: &str) -> bool {
    match (fs::metadata(rt, folder), fs::metadata(rt, other)) {
        (Ok(one), Ok(two)) => one.dev() == two.dev() && one.ino() == two.ino(),
        _ => false,
    }
}

/// Whether the folder that is to follow, if one is, has a name, and is another than that of the
/// service: else the stores of the one would be written as those of the other. The stores of a
/// folder without a name would be those of the root.
pub(crate) fn check_apart<'a>(
    rt: &HostRuntime,
    folder: &str,
    copy: Option<&str>,
) -> Result<(), Fault<'a>> {
    match copy {
        Some("") => Err(Fault::of_serving(ServeFault::Copy {
            server: 0,
            word: CopyWord::Store,
        })),
        Some(copy) if is_same_folder(rt, folder, copy) => {
            Err(Fault::of_serving(ServeFault::SameFolder))
        }
        _ => Ok(()),
    }
}
