//! The report of a wire.

ghost use Rattle.std.specs.Prelude.{◌≡◌};
ghost use Rattle.macs_texts.specs.Counting.{reported, wire_number};

use macs_edge::WireCounts;

/// The counters of a wire, and how many datagrams never reached it.
#[derive(Clone, Copy, Debug, PartialEq, Eq)]
pub struct WireReport {
    pub counts: WireCounts,
    /// How many datagrams the system dropped before the wire could take them, because its buffer
    /// was full (InPktsOverrun: IEEE Std 802.1AE-2018, 10.7.9), if the system reports it.
    pub overrun: Option<u64>,
}

/// The report of a wire with these counts, of whose datagrams the system dropped `overrun`.
pub fn reported(counts: WireCounts, overrun: Option<u64>) -> WireReport
    ensures { result ≡ reported counts overrun }
{
    WireReport { counts, overrun }
}

/// What a number in the report of a wire counts. That of the buffer is its size in octets.
#[derive(Clone, Copy)]
pub(crate) enum WireNumber {
    Taken,
    TooLong,
    Sent,
    Strangers,
    FailedReceives,
    FailedSends,
    Buffer,
    Overrun,
}

/// The numbers of a wire, in the order in which they are reported.
pub(crate) const WIRE_NUMBERS: [WireNumber; 8] = [
    WireNumber::Taken,
    WireNumber::TooLong,
    WireNumber::Sent,
    WireNumber::Strangers,
    WireNumber::FailedReceives,
    WireNumber::FailedSends,
    WireNumber::Buffer,
    WireNumber::Overrun,
];

/// A number of a wire, if it is known.
pub(crate) fn wire_number(wire: &WireReport, number: WireNumber) -> Option<u64>
    ensures { result ≡ wire_number wire.now number }
{
    let counts = wire.counts;
    match number {
        WireNumber::Taken => Some(counts.taken),
        WireNumber::TooLong => Some(counts.too_long),
        WireNumber::Sent => Some(counts.sent),
        WireNumber::Strangers => Some(counts.strangers),
        WireNumber::FailedReceives => Some(counts.failed_receives),
        WireNumber::FailedSends => Some(counts.failed_sends),
        WireNumber::Buffer => counts.buffer,
        WireNumber::Overrun => wire.overrun,
    }
}
