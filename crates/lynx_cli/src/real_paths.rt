//! Paths of folders without links in them.
use crate::fault::Fault;
use crate::restoring::above;
use crate::shown::Shown;
use std::fs;
use std::io::ErrorKind;

/// A copy of the path.
fn copied<'a>(rt: &HostRuntime, path: &str) -> Result<String, Fault<'a>> {
    match String::from_str(rt.alloc(), path) {
        Ok(copy) => Ok(copy),
        Err(_) => Err(Fault::Memory),
    }
}

/// The path of a folder without links in it, or the path as it is if it leads nowhere: whoever
/// opens the folder tells so.
pub(crate) fn real_path<'a>(rt: &HostRuntime, path: &str) -> Result<String, Fault<'a>> {
    match fs::canonicalize(rt, path) {
        Ok(real) => Ok(real.into_string()),
        Err(error) if error.kind() == ErrorKind::OutOfMemory => Err(Fault::Memory),
        Err(_) => copied(rt, path),
    }
}

/// The last name in a path.
fn last_name(path: &str) -> &str {
    let path = path.trim_end_matches('/');
    match path.rsplit_once('/') {
        Some((_, name)) => name,
        None => path,
    }
}

/// The path without links of a folder that is to be made, in one that is there.
fn made_path<'a>(rt: &HostRuntime, path: &'a str) -> Result<String, Fault<'a>> {
    let folder = match fs::canonicalize(rt, above(path)) {
        Ok(folder) => folder.into_string(),
        Err(error) if error.kind() == ErrorKind::OutOfMemory => return Err(Fault::Memory),
        Err(_) => return Err(Fault::Unwritten(Shown { name: path })),
    };
    let (folder, name) = (folder.as_str().trim_end_matches('/'), last_name(path));
    match format!(in rt.alloc(); "{folder}/{name}") {
        Ok(made) => Ok(made),
        Err(_) => Err(Fault::Memory),
    }
}

/// The path without links of a folder that is there, or is to be made.
pub(crate) fn new_path<'a>(rt: &HostRuntime, path: &'a str) -> Result<String, Fault<'a>> {
    match fs::canonicalize(rt, path) {
        Ok(real) => Ok(real.into_string()),
        Err(error) if error.kind() == ErrorKind::NotFound => made_path(rt, path),
        Err(error) if error.kind() == ErrorKind::OutOfMemory => Err(Fault::Memory),
        Err(_) => Err(Fault::Unwritten(Shown { name: path })),
    }
}
