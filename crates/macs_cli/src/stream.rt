//! Where the program prints: standard output and standard error.

ghost use Rattle.std.specs.Prelude.{◌≡◌, ℕ, Bool, List, Option, true, OnErr, OnOk};
ghost use Rattle.std.specs.Io.KnownBytes.{Appends};

use std::io::Write;

/// A text was not printed whole, or not flushed.
#[derive(Clone, Copy)]
pub struct PrintFailed;

/// Where texts are printed. Whether a print ever failed is known; what was printed may be known.
pub trait Stream {
    /// What was printed, where known.
    ghost contents: { Self → Option (List ℕ) };

    /// Whether a text was not printed whole, or not flushed.
    ghost failed: { Self → Bool };

    /// Prints a text whole and flushes. If that fails, a prefix of it may have been printed.
    fn print(&mut self, text: &[u8]) -> Result<(), PrintFailed>
        ensures printed { OnOk result (Appends (contents self.old) (contents self.new) text.now) }
        ensures done { OnOk result (failed self.new ≡ failed self.old) }
        ensures broken { OnErr result (failed self.new ≡ true) };
}

/// A stream over a standard-library writer, which is flushed after each text, so that no line is
/// held back while the program runs. An interrupted write is retried.
#[derive(Drop)]
pub struct WriterStream<W: Write> {
    writer: W,
    has_failed: bool,
}

impl<W: Write> Stream for WriterStream<W> {
    ghost contents = { λ stream. W.contents stream.writer };

    ghost failed = { λ stream. stream.has_failed };

    fn print(&mut self, text: &[u8]) -> Result<(), PrintFailed> {
        if self.writer.write_all(text).is_err() || self.writer.flush().is_err() {
            self.has_failed = true;
            return Err(PrintFailed);
        }
        Ok(())
    }
}

impl<W: Write> WriterStream<W> {
    ghost use Rattle.std.specs.Prelude.{◌≡◌, false};

    /// A stream over a writer, which starts with what the writer holds and no failed print.
    pub fn new(writer: W) -> WriterStream<W>
        ensures contents { ⟦<WriterStream<W> as Stream>⟧.contents result ≡ W.contents writer }
        ensures failed { ⟦<WriterStream<W> as Stream>⟧.failed result ≡ false }
    {
        WriterStream {
            writer,
            has_failed: false,
        }
    }
}
