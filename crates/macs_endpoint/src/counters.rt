//! The counters of an endpoint.

ghost use Rattle.std.specs.Prelude.{◌≡◌};
ghost use Rattle.std.specs.Option.{option_map};
ghost use Rattle.macs_frame.specs.Traffic.{traffic_under};
ghost use Rattle.macs_txsc.specs.Transmit.{fault_count};
ghost use Rattle.macs_txsc.specs.Value as txsc;
ghost use Rattle.macs_rxsc.specs.Counting.{channel_count_of, count_of};
ghost use Rattle.macs_rxsc.specs.Value as rxsc;
ghost use Rattle.macs_rxsc.specs.declared.counters.ChannelCounters.{ChannelCounters};

use macs_frame::{An, Sci, Traffic};
use macs_rxsc::{Rx, Verdict};
use macs_txsc::{Tx, TxFault};

/// How often each answer was given since the disk was opened, and what frames carried, each up to
/// 2^64 - 1. The answer that the endpoint is stopped is not counted.
#[derive(Clone, Copy)]
pub struct Counters<'a> {
    pub(crate) tx: &'a Tx,
    pub(crate) rx: &'a Rx,
}

impl Counters<'_> {
    /// How often this fault was returned.
    pub fn tx_fault(&self, fault: TxFault) -> u64
        ensures { result ≡ fault_count fault (txsc.counters_of self.now.tx.now) }
    {
        self.tx.fault_count(fault)
    }

    /// How many plain frames were protected.
    pub fn protected(&self) -> u64
        ensures { result ≡ (txsc.counters_of self.now.tx.now).protected }
    {
        self.tx.protected_count()
    }

    /// What the frames carried that were protected under an association number.
    pub fn transmitted(&self, an: An) -> Traffic
        ensures { result ≡ traffic_under (txsc.counters_of self.now.tx.now).traffic an }
    {
        self.tx.traffic(an)
    }

    /// How often this verdict was given; a frame that is held back is not counted.
    pub fn verdict(&self, verdict: Verdict) -> u64
        ensures { result ≡ count_of verdict (rxsc.counters_of self.now.rx.now) }
    {
        self.rx.count(verdict)
    }

    /// How often this verdict was given on frames of a channel, since the channel was added or the
    /// disk was opened. 0 for a verdict that is not counted for channels, and `None` if the channel
    /// does not exist.
    pub fn channel(&self, sci: Sci, verdict: Verdict) -> Option<u64>
        ensures { result
            ≡ option_map (channel_count_of verdict) (rxsc.channel_counters_of self.now.rx.now sci) }
    {
        self.rx.channel_count(sci, verdict)
    }

    /// What the frames of a channel carried that verified under an association number, since the
    /// channel was added or the disk was opened. `None` if the channel does not exist.
    pub fn received(&self, sci: Sci, an: An) -> Option<Traffic>
        ensures { result ≡ option_map (λ (c : ChannelCounters). traffic_under c.traffic an)
            (rxsc.channel_counters_of self.now.rx.now sci) }
    {
        self.rx.traffic(sci, an)
    }
}
