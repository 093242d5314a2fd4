//! The counters of a transmit channel.

ghost use Rattle.std.specs.Prelude.{◌≡◌};
ghost use Rattle.macs_config.specs.Numbers.{one_more};
ghost use Rattle.macs_txsc.specs.Transmit.{counters_after_fault, counters_after_frame};
ghost use Rattle.macs_txsc.specs.Transmit.{fault_count, no_counts};

use crate::fault::TxFault;
use macs_frame::{ChannelTraffic, SecTag};

/// How many frames were protected, what they carried, and how many met each fault. A counter
/// saturates at 2^64 - 1.
#[derive(Clone, Copy)]
pub struct TxCounters {
    pub protected: u64,
    pub traffic: ChannelTraffic,
    pub runt: u64,
    pub too_long: u64,
    pub foreign_source: u64,
    pub no_encoding_sa: u64,
    pub exhausted: u64,
    pub no_number: u64,
}

impl TxCounters {
    /// Counters that are all 0.
    pub fn new() -> TxCounters
        ensures { result ≡ no_counts }
    {
        TxCounters {
            protected: 0,
            traffic: ChannelTraffic::new(),
            runt: 0,
            too_long: 0,
            foreign_source: 0,
            no_encoding_sa: 0,
            exhausted: 0,
            no_number: 0,
        }
    }

    /// How many frames met this fault.
    pub fn fault_count(&self, fault: TxFault) -> u64
        ensures { result ≡ fault_count fault self.now }
    {
        match fault {
            TxFault::Runt => self.runt,
            TxFault::TooLong => self.too_long,
            TxFault::ForeignSource => self.foreign_source,
            TxFault::NoEncodingSa => self.no_encoding_sa,
            TxFault::Exhausted => self.exhausted,
            TxFault::NoNumber => self.no_number,
        }
    }

    /// Counts one more frame that met this fault.
    pub fn add_fault(&mut self, fault: TxFault)
        ensures { self.new ≡ counters_after_fault fault self.old }
    {
        match fault {
            TxFault::Runt => count_one(&mut self.runt),
            TxFault::TooLong => count_one(&mut self.too_long),
            TxFault::ForeignSource => count_one(&mut self.foreign_source),
            TxFault::NoEncodingSa => count_one(&mut self.no_encoding_sa),
            TxFault::Exhausted => count_one(&mut self.exhausted),
            TxFault::NoNumber => count_one(&mut self.no_number),
        }
    }

    /// Counts one more plain frame that was protected, under this SecTAG.
    pub fn add_frame(&mut self, tag: &SecTag, plain: &[u8])
        ensures { self.new ≡ counters_after_frame tag.now plain.now self.old }
    {
        count_one(&mut self.protected);
        self.traffic.add(tag, plain);
    }
}

/// Adds one, up to 2^64 - 1.
fn count_one(counter: &mut u64)
    ensures { counter.new ≡ one_more counter.old }
{
    *counter = counter.saturating_add(1);
}
