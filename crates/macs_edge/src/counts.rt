//! What a wire counts.

ghost use Rattle.std.specs.Prelude.{◌≡◌};
ghost use Rattle.macs_edge.specs.Counts.{is_too_long, takes_one};

use crate::wire::{Got, WireFault};

/// What a UDP wire has counted, each counter up to 2^64 - 1, and the size of its buffer.
#[derive(Clone, Copy, Debug, PartialEq, Eq)]
pub struct WireCounts {
    /// Datagrams from an address other than the peer's. They are dropped.
    pub strangers: u64,
    /// Frames that were taken off the wire, including those of more than 9,216 octets.
    pub taken: u64,
    /// How many of these had more than 9,216 octets. They are dropped.
    pub too_long: u64,
    /// Frames that were sent.
    pub sent: u64,
    pub failed_receives: u64,
    pub failed_sends: u64,
    /// How many octets of waiting datagrams the system buffers for it (`SO_RCVBUF`, socket(7)), if
    /// the system was asked.
    pub buffer: Option<u64>,
}

/// A wire that counts what passes over it.
pub trait Counted {
    ghost use Rattle.std.specs.Prelude.{◌≡◌};
    ghost use Rattle.macs_edge.specs.declared.counts.WireCounts.{WireCounts};

    /// What it has counted so far.
    ghost wire_counts: { Self → WireCounts };

    /// What it has counted so far.
    fn counts(&self) -> WireCounts
        ensures { result ≡ wire_counts self.now };
}

/// Whether this answer means that a frame was taken off the wire.
pub(crate) fn takes_one(answer: &Result<Got, WireFault>) -> bool
    ensures { result ≡ takes_one answer.now }
{
    match answer {
        Ok(Got::Frame | Got::TooLong) => true,
        Ok(Got::Nothing) | Err(_) => false,
    }
}

/// Whether this answer means that a frame was taken off the wire and was too long.
pub(crate) fn is_too_long(answer: &Result<Got, WireFault>) -> bool
    ensures { result ≡ is_too_long answer.now }
{
    match answer {
        Ok(Got::TooLong) => true,
        Ok(Got::Frame | Got::Nothing) | Err(_) => false,
    }
}
