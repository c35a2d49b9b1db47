//! What tests of several files use.
use std::io;
use std::io::Write;

/// Takes so many writes, and then fails, as a pipe does whose reader is gone.
#[derive(Drop)]
pub struct Full {
    pub left: usize,
}

impl Write for Full {
    fn write(&mut self, bytes: &[u8]) -> io::Result<usize> {
        if self.left == 0 {
            return Err(io::Error::from(io::ErrorKind::BrokenPipe));
        }
        self.left -= 1;
        Ok(bytes.len())
    }

    fn flush(&mut self) -> io::Result<()> {
        Ok(())
    }
}
