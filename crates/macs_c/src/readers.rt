//! What a C program may read of an endpoint.

ghost use Rattle.std.specs.Prelude.{◌≡◌};
ghost use Rattle.macs_c.specs.Shown.{RxFrom, TxFrom, counts_of, received_counts, unsent_counts};

use crate::answers::Answer;
use crate::fields::MacsSci;
use crate::reported::ReportedDisk;
use macs_endpoint::Endpoint;
use macs_fields::{An, Sci};
use macs_rxsc::VERDICTS;
use macs_txsc::TxFault;

/// A transmit association.
#[repr(C)]
#[derive(Clone, Copy)]
pub struct MacsTx {
    /// The next packet number, 1 to 2^32.
    pub next: u64,
    /// How many packet numbers from there on are reserved.
    pub reserved: u64,
}

/// A receive association.
#[repr(C)]
#[derive(Clone, Copy)]
pub struct MacsRx {
    /// The next expected packet number, 1 to 2^32.
    pub next: u64,
    /// The lowest acceptable packet number, at most `next`.
    pub lowest: u64,
    /// How many packet numbers from `next` on are reserved.
    pub reserved: u64,
}

/// How often each answer was given since the disk was opened, each up to 2^64 - 1.
#[repr(C)]
#[derive(Clone, Copy)]
pub struct MacsCounters {
    /// Plain frames that were protected.
    pub protected_frames: u64,
    /// Plain frames that were not sent, by fault, in the order of the codes.
    pub unsent: [u64; 6],
    /// Received frames that were delivered or discarded, by verdict, in the order of the codes.
    pub received: [u64; 15],
}

/// The faults that are counted, in the order of their codes.
const FAULTS: [TxFault; 6] = [
    TxFault::Runt,
    TxFault::TooLong,
    TxFault::ForeignSource,
    TxFault::NoEncodingSa,
    TxFault::Exhausted,
    TxFault::NoNumber,
];

/// Shows a transmit association.
pub(crate) fn show_tx(endpoint: &Endpoint<ReportedDisk>, an: u8, shown: &mut MacsTx) -> Answer
    ensures { TxFrom endpoint.now an shown.old result shown.new }
{
    endpoint.facts();
    let Some(number) = An::new(an) else {
        return Answer::Field;
    };
    let Some(next) = endpoint.next_number(number) else {
        return Answer::Absent;
    };
    let Some(reserved) = endpoint.reserved_tx(number) else {
        return Answer::Absent; // Not reached.
    };
    *shown = MacsTx { next, reserved };
    Answer::Success
}

/// Shows a receive association.
pub(crate) fn show_rx(
    endpoint: &Endpoint<ReportedDisk>,
    sci: &MacsSci,
    an: u8,
    shown: &mut MacsRx,
) -> Answer
    ensures { RxFrom endpoint.now sci.now.octets an shown.old result shown.new }
{
    endpoint.facts();
    let Some(number) = An::new(an) else {
        return Answer::Field;
    };
    let channel = Sci(sci.octets);
    let Some(numbers) = endpoint.numbers(channel, number) else {
        return Answer::Absent;
    };
    let Some(reserved) = endpoint.reserved_rx(channel, number) else {
        return Answer::Absent; // Not reached.
    };
    *shown = MacsRx {
        next: numbers.next,
        lowest: numbers.lowest,
        reserved,
    };
    Answer::Success
}

/// How many plain frames were not sent, by fault.
fn unsent(endpoint: &Endpoint<ReportedDisk>) -> [u64; 6]
    ensures { result ≡ unsent_counts endpoint.now }
{
    let counters = endpoint.counters();
    let mut counts = [0; 6];
    for at in 0..6 {
        counts[at] = counters.tx_fault(FAULTS[at]);
    }
    counts
}

/// How many received frames were delivered or discarded, by verdict.
fn received(endpoint: &Endpoint<ReportedDisk>) -> [u64; 15]
    ensures { result ≡ received_counts endpoint.now }
{
    let counters = endpoint.counters();
    let mut counts = [0; 15];
    for at in 0..15 {
        counts[at] = counters.verdict(VERDICTS[at]);
    }
    counts
}

/// The counters.
pub(crate) fn count(endpoint: &Endpoint<ReportedDisk>) -> MacsCounters
    ensures { result ≡ counts_of endpoint.now }
{
    MacsCounters {
        protected_frames: endpoint.counters().protected(),
        unsent: unsent(endpoint),
        received: received(endpoint),
    }
}
