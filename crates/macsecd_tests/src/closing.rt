//! A writer that fails after some calls.

use std::io;
use std::io::{ErrorKind, Write};

/// A writer that takes so many writes and so many flushes, and then fails.
#[derive(Drop)]
pub struct Closing {
    pub writes: u32,
    pub flushes: u32,
}

/// One call less, where there is one left.
fn counted_down(left: &mut u32) -> io::Result<()> {
    if *left == 0 {
        return Err(io::Error::from(ErrorKind::BrokenPipe));
    }
    *left -= 1;
    Ok(())
}

impl Write for Closing {
    fn write(&mut self, from: &[u8]) -> io::Result<usize> {
        counted_down(&mut self.writes)?;
        Ok(from.len())
    }

    fn flush(&mut self) -> io::Result<()> {
        counted_down(&mut self.flushes)
    }
}
