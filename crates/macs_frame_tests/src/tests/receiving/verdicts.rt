//! Every verdict, under strict validation and where validation only checks.

use super::frames::Security::{Confidentiality, Integrity};
use super::frames::{Change, Security, Source};
use super::story::{Step, ready, take};
use super::{
    ALL_VERDICTS, BAD_TAG, CHANNEL_VERDICTS, DELAYED, FOR_KAY, INVALID, LATE, NO_SCI, NO_TAG,
    NOT_USING_SA, NOT_VALID, OK, OVERSIZE, RUNT, UNKNOWN_SCI, UNTAGGED, UNUSED_SA,
};
use crate::tests::known_frames::{CHANNEL, INTEGRITY, STATION};
use macs_config::Validate;
use macs_rxsc::{Rx, Verdict};
use std::process::Abort;

/// A frame. It is one of the channel under association 2, where nothing else is said.
#[derive(Clone, Copy)]
enum Sent {
    /// So many octets without a SecTAG.
    Untagged(usize),
    /// Octet 3 of its SecTAG is this one.
    Control(u8),
    OtherChannel(Security),
    OtherAssociation(Security),
    Numbered(u32, Security),
    /// The last bit of its ICV is changed.
    Broken(u32, Security),
}

/// The frame has this verdict.
fn step_of(sent: Sent, verdict: Verdict) -> Step {
    let (source, change) = match sent {
        Sent::Untagged(octets) => return Step::Untagged(octets, verdict),
        Sent::Control(octet) => (Source::These(INTEGRITY), Change::Octet(14, octet)),
        Sent::OtherChannel(security) => (sealed(STATION, 2, 5, security), Change::Nothing),
        Sent::OtherAssociation(security) => (sealed(CHANNEL, 3, 5, security), Change::Nothing),
        Sent::Numbered(number, security) => (sealed(CHANNEL, 2, number, security), Change::Nothing),
        Sent::Broken(number, security) => (sealed(CHANNEL, 2, number, security), Change::LastBit),
    };
    Step::Plain(source, change, verdict)
}

/// A frame whose plain frame is `PLAIN`.
fn sealed(sci: [u8; 8], association: u8, number: u32, security: Security) -> Source {
    Source::Sealed(sci, association, number, security, 62)
}

/// The verdict is counted, and no other.
fn expect_counts(rt: &impl Abort, rx: &mut Rx, verdict: Verdict) {
    for counted in ALL_VERDICTS {
        take(rt, rx, Step::Count(counted, u64::from(counted == verdict)));
    }
    take(rt, rx, Step::Count(Verdict::HeldBack, 0));
}

/// The verdict is counted for the channel where it is one of a channel, and no other.
fn expect_channel_counts(rt: &impl Abort, rx: &mut Rx, verdict: Verdict) {
    for counted in CHANNEL_VERDICTS {
        let count = Some(u64::from(counted == verdict));
        take(rt, rx, Step::ChannelCount(CHANNEL, counted, count));
    }
}

/// A frame to association 2 of the channel, with next number 3 and ceiling 9, under a window of 0.
/// All that is given is the plain frame. The verdict is counted and no other, and the numbers move
/// where the frame is delivered as verified.
fn expect_verdict(
    rt: &impl Abort,
    sent: Sent,
    validate: Validate,
    on: bool,
    verdict: Verdict,
    next: u64,
) {
    let mut rx = ready(rt, 3, 9);
    take(rt, &mut rx, Step::Policy(validate, on, 0));
    take(rt, &mut rx, step_of(sent, verdict));
    take(rt, &mut rx, Step::Numbers(next, next));
    expect_counts(rt, &mut rx, verdict);
    expect_channel_counts(rt, &mut rx, verdict);
}

/// The verdicts on a frame, under strict validation and else.
fn expect_verdicts(rt: &impl Abort, sent: Sent, on: bool, verdicts: [Verdict; 2], next: u64) {
    let [strict, check] = verdicts;
    expect_verdict(rt, sent, Validate::Strict, on, strict, next);
    expect_verdict(rt, sent, Validate::Check, on, check, next);
}

/// The same with replay protection on and off.
fn expect_always(rt: &impl Abort, sent: Sent, verdicts: [Verdict; 2], next: u64) {
    for on in [true, false] {
        expect_verdicts(rt, sent, on, verdicts, next);
    }
}

/// Frames without a SecTAG, and with one whose number is not below the lowest acceptable.
#[test]
fn frames_in_order(rt: HostRuntime) {
    let cases = [
        (Sent::Untagged(13), [RUNT, RUNT], 3),
        (Sent::Untagged(9217), [OVERSIZE, OVERSIZE], 3),
        (Sent::Untagged(62), [NO_TAG, UNTAGGED], 3),
        (Sent::Control(0x32), [BAD_TAG, BAD_TAG], 3),
        (Sent::Control(0x2a), [FOR_KAY, FOR_KAY], 3),
        (Sent::OtherChannel(Integrity), [NO_SCI, UNKNOWN_SCI], 3),
        (Sent::OtherChannel(Confidentiality), [NO_SCI, NO_SCI], 3),
        (
            Sent::OtherAssociation(Integrity),
            [NOT_USING_SA, UNUSED_SA],
            3,
        ),
        (
            Sent::OtherAssociation(Confidentiality),
            [NOT_USING_SA, NOT_USING_SA],
            3,
        ),
        (Sent::Broken(3, Integrity), [NOT_VALID, INVALID], 3),
        (Sent::Broken(3, Confidentiality), [NOT_VALID, NOT_VALID], 3),
        (Sent::Broken(9, Integrity), [NOT_VALID, INVALID], 3),
        (Sent::Broken(9, Confidentiality), [NOT_VALID, NOT_VALID], 3),
        (
            Sent::Numbered(9, Integrity),
            [Verdict::HeldBack, Verdict::HeldBack],
            3,
        ),
        (
            Sent::Numbered(9, Confidentiality),
            [Verdict::HeldBack, Verdict::HeldBack],
            3,
        ),
        (Sent::Numbered(3, Integrity), [OK, OK], 4),
        (Sent::Numbered(8, Confidentiality), [OK, OK], 9),
    ];
    for (sent, verdicts, next) in cases {
        expect_always(&rt, sent, verdicts, next);
    }
}

/// Frames with a number below the lowest acceptable, which is 3.
#[test]
fn late_frames(rt: HostRuntime) {
    let cases = [
        (Sent::Numbered(2, Integrity), true, [LATE, LATE]),
        (Sent::Numbered(2, Confidentiality), true, [LATE, LATE]),
        (Sent::Broken(2, Integrity), true, [LATE, LATE]),
        (Sent::Numbered(2, Integrity), false, [DELAYED, DELAYED]),
        (
            Sent::Numbered(2, Confidentiality),
            false,
            [DELAYED, DELAYED],
        ),
        (Sent::Broken(2, Integrity), false, [NOT_VALID, INVALID]),
        (
            Sent::Broken(2, Confidentiality),
            false,
            [NOT_VALID, NOT_VALID],
        ),
    ];
    for (sent, on, verdicts) in cases {
        expect_verdicts(&rt, sent, on, verdicts, 3);
    }
}
