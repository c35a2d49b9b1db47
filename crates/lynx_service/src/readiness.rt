//! Waiting for a file handle, for a while and no longer.
use libc::net::{POLLIN, POLLOUT, poll};
use libc::types::pollfd;

/// Whether one of these events comes within so many milliseconds, where the system can tell.
fn comes(handle: i32, events: i16, millis: i32) -> bool {
    let mut asked = [pollfd {
        fd: handle,
        events,
        revents: 0,
    }];
    poll(&mut asked, millis) > 0
}

/// Whether something can be read or accepted within so many milliseconds.
pub(crate) fn can_read(handle: i32, millis: i32) -> bool {
    comes(handle, POLLIN, millis)
}

/// Whether a page of bytes can be written within so many milliseconds.
pub(crate) fn can_write(handle: i32, millis: i32) -> bool {
    comes(handle, POLLOUT, millis)
}
