//! A buffer that is flushed when it is full.

use std::io;
use std::io::{BufWriter, Write};

/// A buffer in front of a writer. Each write to that writer but the last has the full size of the
/// buffer: data that does not fit is split there, where a `BufWriter` by itself would flush what it
/// has first. So writes to a file begin and end at multiples of the buffer size, which costs the
/// system less.
#[derive(Drop)]
pub struct WholeWrites<W: Write + Drop> {
    buffer: BufWriter<W>,
}

impl<W: Write + Drop> WholeWrites<W> {
    ghost use Rattle.std.specs.Prelude.{◌≡◌};

    /// Writes go through this buffer.
    pub fn new(buffer: BufWriter<W>) -> WholeWrites<W>
        ensures { ⟦<WholeWrites<W> as Write>⟧.contents result
            ≡ ⟦<BufWriter<W> as Write>⟧.contents buffer }
    {
        WholeWrites { buffer }
    }
}

impl<W: Write + Drop> Write for WholeWrites<W> {
    ghost contents = { λ whole. ⟦<BufWriter<W> as Write>⟧.contents whole.buffer };

    fn write(&mut self, octets: &[u8]) -> io::Result<usize> {
        let room = self
            .buffer
            .capacity()
            .saturating_sub(self.buffer.buffer().len());
        if room == 0 || octets.len() <= room {
            return self.buffer.write(octets);
        }
        let (fits, _) = octets.split_at(room);
        self.buffer.write(fits)
    }

    fn flush(&mut self) -> io::Result<()> {
        self.buffer.flush()
    }
}
