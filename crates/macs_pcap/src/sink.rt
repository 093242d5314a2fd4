//! Destinations of the octets of a capture.

ghost use Rattle.std.specs.Prelude.{◌≡◌, ◌<◌, length, false, true, IfOk, OnErr, OnOk};
ghost use Rattle.std.specs.Io.{WritesAtMost};
ghost use Rattle.std.specs.Io.KnownBytes.{Keeps, WriteAppends};
ghost use Rattle.macs_pcap.specs.States.{SinkState};

use std::io::Write;

/// A write or a flush failed, or a write took no octet.
#[derive(Clone, Copy)]
pub struct WriteFailed;

/// A destination of octets. It reports whether a write or a flush of it ever failed and whether all
/// that was written is flushed, and may report which octets it took.
pub trait Sink {
    /// The state that it reports.
    ghost state: { Self → SinkState };

    /// Writes some octets, from the first on, and returns how many: at least one, if there is one.
    fn write(&mut self, from: &[u8]) -> Result<usize, WriteFailed>
        ensures bound { WritesAtMost result from.now }
        ensures octets { WriteAppends (state self.old).held (state self.new).held result from.now }
        ensures some { IfOk result (λ count. 0 < length from.now → 0 < count) }
        ensures done { OnOk result ((state self.new).failed ≡ (state self.old).failed) }
        ensures failed { OnErr result ((state self.new).failed ≡ true) }
        ensures waits { 0 < length from.now → (state self.new).flushed ≡ false };

    /// Flushes all that was written. A sink that buffers octets may fail only here.
    fn flush(&mut self) -> Result<(), WriteFailed>
        ensures octets { Keeps (state self.old).held (state self.new).held }
        ensures flushed { OnOk result ((state self.new).flushed ≡ true) }
        ensures done { OnOk result ((state self.new).failed ≡ (state self.old).failed) }
        ensures failed { OnErr result ((state self.new).failed ≡ true) };
}

/// A sink over a standard-library writer. Each of its writes is one write of that writer, so a file
/// should be written through `BufWriter::with_capacity(alloc, 65_536, file)`: then there is one
/// system call per 65,536 octets instead of one per capture record, and memory is allocated only at
/// the start. A write that such a writer buffers may fail late: a caller that needs to know
/// flushes.
#[derive(Drop)]
pub struct WriterSink<W: Write> {
    writer: W,
    has_failed: bool,
    is_flushed: bool,
}

impl<W: Write> Sink for WriterSink<W> {
    ghost state = { λ sink. record {
      held = W.contents sink.writer;
      failed = sink.has_failed;
      flushed = sink.is_flushed;
    } };

    fn write(&mut self, from: &[u8]) -> Result<usize, WriteFailed> {
        if from.is_empty() {
            return Ok(0);
        }
        self.is_flushed = false;
        match self.writer.write(from) {
            Ok(0) | Err(_) => {
                self.has_failed = true;
                Err(WriteFailed)
            }
            Ok(count) => Ok(count),
        }
    }

    fn flush(&mut self) -> Result<(), WriteFailed> {
        if self.writer.flush().is_err() {
            self.has_failed = true;
            return Err(WriteFailed);
        }
        self.is_flushed = true;
        Ok(())
    }
}

impl<W: Write> WriterSink<W> {
    ghost use Rattle.std.specs.Prelude.{◌≡◌, false};

    /// A sink that took what the writer holds, to which no write failed, and which must be flushed.
    pub fn new(writer: W) -> WriterSink<W>
        ensures held { (⟦<WriterSink<W> as Sink>⟧.state result).held ≡ W.contents writer }
        ensures failed { (⟦<WriterSink<W> as Sink>⟧.state result).failed ≡ false }
        ensures flushed { (⟦<WriterSink<W> as Sink>⟧.state result).flushed ≡ false }
    {
        WriterSink {
            writer,
            has_failed: false,
            is_flushed: false,
        }
    }
}
