//! Sources of the octets of a capture.

ghost use Rattle.std.specs.Prelude.{◌≡◌, true, OnErr, OnOk};
ghost use Rattle.std.specs.Io.{ReadsAtMost};
ghost use Rattle.std.specs.Io.KnownBytes.{ReadConsumes};
ghost use Rattle.macs_pcap.specs.States.{SourceState};

use std::io::Read;

/// A read failed.
#[derive(Clone, Copy)]
pub struct ReadFailed;

/// A source of octets. It reports whether a read of it ever failed, and may report which octets it
/// has left.
pub trait Source {
    /// The state that it reports.
    ghost state: { Self → SourceState };

    /// Reads some octets into the front of `into` and returns how many; none only at the end, or if
    /// `into` is empty.
    fn read(&mut self, into: &mut [u8]) -> Result<usize, ReadFailed>
        ensures bound { ReadsAtMost result into.new }
        ensures octets { ReadConsumes (state self.old).left (state self.new).left result into.new }
        ensures done { OnOk result ((state self.new).failed ≡ (state self.old).failed) }
        ensures failed { OnErr result ((state self.new).failed ≡ true) };
}

/// A source over a standard-library reader. Each of its reads is one read of that reader, so a file
/// should be read through `BufReader::with_capacity(alloc, 65_536, file)`: then there is one system
/// call per 65,536 octets instead of one per capture record, and memory is allocated only at the
/// start.
#[derive(Drop)]
pub struct ReaderSource<R: Read> {
    reader: R,
    has_failed: bool,
}

impl<R: Read> Source for ReaderSource<R> {
    ghost state = { λ source.
        record { left = R.remaining source.reader; failed = source.has_failed } };

    fn read(&mut self, into: &mut [u8]) -> Result<usize, ReadFailed> {
        match self.reader.read(into) {
            Ok(count) => Ok(count),
            Err(_) => {
                self.has_failed = true;
                Err(ReadFailed)
            }
        }
    }
}

impl<R: Read> ReaderSource<R> {
    ghost use Rattle.std.specs.Prelude.{◌≡◌, false};

    /// A source that has left what the reader has, none of whose reads has failed.
    pub fn new(reader: R) -> ReaderSource<R>
        ensures left { (⟦<ReaderSource<R> as Source>⟧.state result).left ≡ R.remaining reader }
        ensures failed { (⟦<ReaderSource<R> as Source>⟧.state result).failed ≡ false }
    {
        ReaderSource {
            reader,
            has_failed: false,
        }
    }
}
