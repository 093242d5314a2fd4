//! The words for what is counted.

ghost use Rattle.std.specs.Prelude.{◌≡◌};
ghost use Rattle.macs_texts.specs.Counting.{fault_words, verdict_words, wire_words};
ghost use Rattle.macs_texts.specs.Measuring.{wire_help, wire_kind, wire_metric_name};

use crate::wire_report::WireNumber;
use macs_rxsc::{Kind, Reason, Verdict};
use macs_txsc::TxFault;

/// The words for the reason why a plain frame was not sent.
pub fn fault_words(fault: TxFault) -> &'static str
    ensures { result.now ≡ fault_words fault }
{
    match fault {
        TxFault::Runt => "runt",
        TxFault::TooLong => "too-long",
        TxFault::ForeignSource => "foreign-source",
        TxFault::NoEncodingSa => "no-encoding",
        TxFault::Exhausted => "exhausted",
        TxFault::NoNumber => "no-number",
    }
}

/// The words for what became of a received frame.
pub fn verdict_words(verdict: Verdict) -> &'static str
    ensures { result.now ≡ verdict_words verdict }
{
    match verdict {
        Verdict::Delivered(Kind::Ok) => "ok",
        Verdict::Delivered(Kind::Delayed) => "delayed",
        Verdict::Delivered(Kind::Invalid) => "invalid",
        Verdict::Delivered(Kind::Untagged) => "untagged",
        Verdict::Delivered(Kind::UnknownSci) => "unknown-sci",
        Verdict::Delivered(Kind::UnusedSa) => "unused-sa",
        Verdict::Discarded(Reason::Runt) => "runt",
        Verdict::Discarded(Reason::Oversize) => "oversize",
        Verdict::Discarded(Reason::NoTag) => "no-tag",
        Verdict::Discarded(Reason::BadTag) => "bad-tag",
        Verdict::Discarded(Reason::ForKay) => "for-kay",
        Verdict::Discarded(Reason::NoSci) => "no-sci",
        Verdict::Discarded(Reason::NotUsingSa) => "not-using-sa",
        Verdict::Discarded(Reason::Late) => "late",
        Verdict::Discarded(Reason::NotValid) => "not-valid",
        Verdict::HeldBack => "held-back",
    }
}

/// The words for what a number of a wire counts.
pub(crate) fn wire_words(number: WireNumber) -> &'static str
    ensures { result.now ≡ wire_words number }
{
    match number {
        WireNumber::Taken => "taken",
        WireNumber::TooLong => "too-long",
        WireNumber::Sent => "sent",
        WireNumber::Strangers => "strangers",
        WireNumber::FailedReceives => "failed-receives",
        WireNumber::FailedSends => "failed-sends",
        WireNumber::Buffer => "buffer",
        WireNumber::Overrun => "overrun",
    }
}

/// The name of the metric of a number of a wire.
pub(crate) fn wire_metric_name(number: WireNumber) -> &'static str
    ensures { result.now ≡ wire_metric_name number }
{
    match number {
        WireNumber::Taken => "macsec_wire_taken_total",
        WireNumber::TooLong => "macsec_wire_too_long_total",
        WireNumber::Sent => "macsec_wire_sent_total",
        WireNumber::Strangers => "macsec_wire_strangers_total",
        WireNumber::FailedReceives => "macsec_wire_failed_receives_total",
        WireNumber::FailedSends => "macsec_wire_failed_sends_total",
        WireNumber::Buffer => "macsec_wire_buffer_octets",
        WireNumber::Overrun => "macsec_wire_overrun_total",
    }
}

/// The type of this metric.
pub(crate) fn wire_kind(number: WireNumber) -> &'static str
    ensures { result.now ≡ wire_kind number }
{
    match number {
        WireNumber::Taken
        | WireNumber::TooLong
        | WireNumber::Sent
        | WireNumber::Strangers
        | WireNumber::FailedReceives
        | WireNumber::FailedSends
        | WireNumber::Overrun => "counter",
        WireNumber::Buffer => "gauge",
    }
}

/// The description of this metric.
pub(crate) fn wire_help(number: WireNumber) -> &'static str
    ensures { result.now ≡ wire_help number }
{
    match number {
        WireNumber::Taken => "Frames taken off a wire.",
        WireNumber::TooLong => "Frames taken off a wire that were too long, and dropped.",
        WireNumber::Sent => "Frames sent on a wire.",
        WireNumber::Strangers => "Datagrams of another address than the peer's.",
        WireNumber::FailedReceives => "Receives that failed.",
        WireNumber::FailedSends => "Sends that failed.",
        WireNumber::Buffer => "Octets of waiting datagrams that the system keeps for a wire.",
        WireNumber::Overrun => {
            "Datagrams that the system dropped, since a wire had no room for them."
        }
    }
}
