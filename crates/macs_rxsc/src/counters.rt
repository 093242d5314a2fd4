//! The counters of receive channels.

ghost use Rattle.std.specs.Prelude.{◌≡◌};
ghost use Rattle.macs_config.specs.Numbers.{one_more};

use crate::verdict::{Kind, Reason, Verdict};
use macs_frame::{ChannelTraffic, SecTag};

/// Adds one, up to 2^64 - 1.
fn count_one(counter: &mut u64)
    ensures { counter.new ≡ one_more counter.old }
{
    *counter = counter.saturating_add(1);
}

/// How often each verdict was given. A counter saturates at 2^64 - 1.
#[derive(Clone, Copy)]
pub struct RxCounters {
    pub ok: u64,
    pub delayed: u64,
    pub invalid: u64,
    pub untagged: u64,
    pub unknown_sci: u64,
    pub unused_sa: u64,
    pub runt: u64,
    pub oversize: u64,
    pub no_tag: u64,
    pub bad_tag: u64,
    pub for_kay: u64,
    pub no_sci: u64,
    pub not_using_sa: u64,
    pub late: u64,
    pub not_valid: u64,
}

/// How often each verdict was given that is counted for a channel, and what the frames carried that
/// verified. A counter saturates at 2^64 - 1.
#[derive(Clone, Copy, Default)]
pub struct ChannelCounters {
    pub ok: u64,
    pub delayed: u64,
    pub traffic: ChannelTraffic,
    pub invalid: u64,
    pub unused_sa: u64,
    pub not_using_sa: u64,
    pub late: u64,
    pub not_valid: u64,
}

impl RxCounters {
    ghost use Rattle.std.specs.Prelude.{◌≡◌};
    ghost use Rattle.macs_rxsc.specs.Counting.{count_of, counters_after_verdict, no_counts};

    /// Counters that are all 0.
    pub fn new() -> RxCounters
        ensures { result ≡ no_counts }
    {
        RxCounters {
            ok: 0,
            delayed: 0,
            invalid: 0,
            untagged: 0,
            unknown_sci: 0,
            unused_sa: 0,
            runt: 0,
            oversize: 0,
            no_tag: 0,
            bad_tag: 0,
            for_kay: 0,
            no_sci: 0,
            not_using_sa: 0,
            late: 0,
            not_valid: 0,
        }
    }

    /// How often this verdict was given, 0 for a frame that is held back.
    pub fn of(&self, verdict: Verdict) -> u64
        ensures { result ≡ count_of verdict self.now }
    {
        match verdict {
            Verdict::Delivered(Kind::Ok) => self.ok,
            Verdict::Delivered(Kind::Delayed) => self.delayed,
            Verdict::Delivered(Kind::Invalid) => self.invalid,
            Verdict::Delivered(Kind::Untagged) => self.untagged,
            Verdict::Delivered(Kind::UnknownSci) => self.unknown_sci,
            Verdict::Delivered(Kind::UnusedSa) => self.unused_sa,
            Verdict::Discarded(Reason::Runt) => self.runt,
            Verdict::Discarded(Reason::Oversize) => self.oversize,
            Verdict::Discarded(Reason::NoTag) => self.no_tag,
            Verdict::Discarded(Reason::BadTag) => self.bad_tag,
            Verdict::Discarded(Reason::ForKay) => self.for_kay,
            Verdict::Discarded(Reason::NoSci) => self.no_sci,
            Verdict::Discarded(Reason::NotUsingSa) => self.not_using_sa,
            Verdict::Discarded(Reason::Late) => self.late,
            Verdict::Discarded(Reason::NotValid) => self.not_valid,
            Verdict::HeldBack => 0,
        }
    }

    /// Counts one more verdict.
    pub fn add(&mut self, verdict: Verdict)
        ensures { self.new ≡ counters_after_verdict verdict self.old }
    {
        match verdict {
            Verdict::Delivered(Kind::Ok) => count_one(&mut self.ok),
            Verdict::Delivered(Kind::Delayed) => count_one(&mut self.delayed),
            Verdict::Delivered(Kind::Invalid) => count_one(&mut self.invalid),
            Verdict::Delivered(Kind::Untagged) => count_one(&mut self.untagged),
            Verdict::Delivered(Kind::UnknownSci) => count_one(&mut self.unknown_sci),
            Verdict::Delivered(Kind::UnusedSa) => count_one(&mut self.unused_sa),
            Verdict::Discarded(Reason::Runt) => count_one(&mut self.runt),
            Verdict::Discarded(Reason::Oversize) => count_one(&mut self.oversize),
            Verdict::Discarded(Reason::NoTag) => count_one(&mut self.no_tag),
            Verdict::Discarded(Reason::BadTag) => count_one(&mut self.bad_tag),
            Verdict::Discarded(Reason::ForKay) => count_one(&mut self.for_kay),
            Verdict::Discarded(Reason::NoSci) => count_one(&mut self.no_sci),
            Verdict::Discarded(Reason::NotUsingSa) => count_one(&mut self.not_using_sa),
            Verdict::Discarded(Reason::Late) => count_one(&mut self.late),
            Verdict::Discarded(Reason::NotValid) => count_one(&mut self.not_valid),
            Verdict::HeldBack => {}
        }
    }
}

impl ChannelCounters {
    ghost use Rattle.std.specs.Prelude.{◌≡◌};
    ghost use Rattle.macs_rxsc.specs.Counting.{channel_count_of, channel_counters_after};
    ghost use Rattle.macs_rxsc.specs.Counting.{no_channel_counts};

    /// Counters that are all 0.
    pub fn new() -> ChannelCounters
        ensures { result ≡ no_channel_counts }
    {
        ChannelCounters {
            ok: 0,
            delayed: 0,
            traffic: ChannelTraffic::new(),
            invalid: 0,
            unused_sa: 0,
            not_using_sa: 0,
            late: 0,
            not_valid: 0,
        }
    }

    /// How often this verdict was given, 0 for one that is not counted for channels.
    pub fn of(&self, verdict: Verdict) -> u64
        ensures { result ≡ channel_count_of verdict self.now }
    {
        match verdict {
            Verdict::Delivered(Kind::Ok) => self.ok,
            Verdict::Delivered(Kind::Delayed) => self.delayed,
            Verdict::Delivered(Kind::Invalid) => self.invalid,
            Verdict::Delivered(Kind::UnusedSa) => self.unused_sa,
            Verdict::Discarded(Reason::NotUsingSa) => self.not_using_sa,
            Verdict::Discarded(Reason::Late) => self.late,
            Verdict::Discarded(Reason::NotValid) => self.not_valid,
            _ => 0,
        }
    }

    /// Counts one more verdict, on a frame with this SecTAG, of which this was delivered.
    pub fn add(&mut self, tag: &SecTag, verdict: Verdict, given: &[u8])
        ensures { self.new ≡ channel_counters_after tag.now verdict given.now self.old }
    {
        match verdict {
            Verdict::Delivered(Kind::Ok) => {
                count_one(&mut self.ok);
                self.traffic.add(tag, given);
            }
            Verdict::Delivered(Kind::Delayed) => {
                count_one(&mut self.delayed);
                self.traffic.add(tag, given);
            }
            Verdict::Delivered(Kind::Invalid) => count_one(&mut self.invalid),
            Verdict::Delivered(Kind::UnusedSa) => count_one(&mut self.unused_sa),
            Verdict::Discarded(Reason::NotUsingSa) => count_one(&mut self.not_using_sa),
            Verdict::Discarded(Reason::Late) => count_one(&mut self.late),
            Verdict::Discarded(Reason::NotValid) => count_one(&mut self.not_valid),
            _ => {}
        }
    }
}
