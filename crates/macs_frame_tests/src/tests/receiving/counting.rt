//! Counters at their greatest, and what is not counted for a channel.

use super::frames::{Change, Security, Source};
use super::story::{Step, play, ready, take};
use super::{
    ALL_VERDICTS, BAD_TAG, CHANNEL_VERDICTS, FOR_KAY, LATE, NO_SCI, NO_TAG, OTHER_VERDICTS,
    OVERSIZE, RUNT,
};
use crate::tests::known_frames::{CHANNEL, INTEGRITY, STATION};
use macs_frame::{An, ChannelTraffic, Pn, ScName, SecTag};
use macs_rxsc::{ChannelCounters, Rx, RxCounters, Verdict};
use std::process::Abort;

/// One below the greatest number.
const BEFORE: u64 = 0xffff_ffff_ffff_fffe;

/// Every counter is one below the greatest number.
const NEARLY_FULL: RxCounters = RxCounters {
    ok: BEFORE,
    delayed: BEFORE,
    invalid: BEFORE,
    untagged: BEFORE,
    unknown_sci: BEFORE,
    unused_sa: BEFORE,
    runt: BEFORE,
    oversize: BEFORE,
    no_tag: BEFORE,
    bad_tag: BEFORE,
    for_kay: BEFORE,
    no_sci: BEFORE,
    not_using_sa: BEFORE,
    late: BEFORE,
    not_valid: BEFORE,
};

/// Every counter of a channel is one below the greatest number.
fn nearly_full_for_channel() -> ChannelCounters {
    ChannelCounters {
        ok: BEFORE,
        delayed: BEFORE,
        traffic: ChannelTraffic::new(),
        invalid: BEFORE,
        unused_sa: BEFORE,
        not_using_sa: BEFORE,
        late: BEFORE,
        not_valid: BEFORE,
    }
}

fn count_of(counters: &RxCounters, verdict: Verdict) -> u64 {
    counters.of(verdict)
}

fn count(counters: &mut RxCounters, verdict: Verdict) {
    counters.add(verdict);
}

fn channel_count_of(counters: &ChannelCounters, verdict: Verdict) -> u64 {
    counters.of(verdict)
}

/// The SecTAG of a frame with integrity alone.
fn tag(rt: &impl Abort) -> SecTag {
    SecTag {
        an: An::new(2).expect(rt, "an"),
        pn: Pn::new(1).expect(rt, "pn"),
        name: ScName::Implicit,
        encrypted: false,
        changed: false,
    }
}

fn count_for_channel(rt: &impl Abort, counters: &mut ChannelCounters, verdict: Verdict) {
    counters.add(&tag(rt), verdict, &[0; 60]);
}

#[test]
fn counters_stay_at_their_greatest(rt: HostRuntime) {
    let mut counters = NEARLY_FULL;
    for verdict in ALL_VERDICTS {
        for before in [BEFORE, u64::MAX] {
            assert_eq!(rt; count_of(&counters, verdict), before, "{verdict:?}");
            count(&mut counters, verdict);
        }
        assert_eq!(rt; count_of(&counters, verdict), u64::MAX, "{verdict:?}");
    }
}

#[test]
fn channel_counters_stay_at_their_greatest(rt: HostRuntime) {
    let mut counters = nearly_full_for_channel();
    for verdict in CHANNEL_VERDICTS {
        for before in [BEFORE, u64::MAX] {
            assert_eq!(rt; channel_count_of(&counters, verdict), before, "{verdict:?}");
            count_for_channel(&rt, &mut counters, verdict);
        }
        assert_eq!(rt;
            channel_count_of(&counters, verdict),
            u64::MAX,
            "{verdict:?}"
        );
    }
}

/// Each frame that verified, Ok twice and Delayed twice, is counted under its association number
/// with 48 octets of User Data, and no other frame is.
#[test]
fn what_verified_is_counted_as_traffic(rt: HostRuntime) {
    let mut counters = nearly_full_for_channel();
    for verdict in CHANNEL_VERDICTS {
        count_for_channel(&rt, &mut counters, verdict);
        count_for_channel(&rt, &mut counters, verdict);
    }
    for an in An::all() {
        let traffic = counters.traffic.of(an);
        let (frames, octets) = if an.get() == 2 { (4, 192) } else { (0, 0) };
        assert_eq!(rt; traffic.plain.frames, frames);
        assert_eq!(rt; traffic.plain.octets, octets);
        assert_eq!(rt; traffic.encrypted.frames, 0);
    }
}

/// What is not counted for the channel is reported as 0.
fn expect_no_others(rt: &impl Abort, rx: &mut Rx) {
    for verdict in OTHER_VERDICTS {
        take(rt, rx, Step::ChannelCount(CHANNEL, verdict, Some(0)));
    }
    take(
        rt,
        rx,
        Step::ChannelCount(CHANNEL, Verdict::HeldBack, Some(0)),
    );
}

/// Verdicts that are not kept for a channel, before and after frames that have them, and after a
/// late one that is counted for it.
#[test]
fn verdicts_of_no_channel(rt: HostRuntime) {
    const STEPS: &[Step] = &[
        Step::Number(9, Verdict::HeldBack),
        Step::Untagged(13, RUNT),
        Step::Untagged(9217, OVERSIZE),
        Step::Untagged(62, NO_TAG),
        Step::Receive(
            Source::These(INTEGRITY),
            Change::Octet(14, 0x32),
            BAD_TAG,
            &[],
        ),
        Step::Receive(
            Source::These(INTEGRITY),
            Change::Octet(14, 0x2a),
            FOR_KAY,
            &[],
        ),
        Step::Receive(
            Source::Sealed(STATION, 2, 5, Security::Integrity, 62),
            Change::Nothing,
            NO_SCI,
            &[],
        ),
    ];
    let mut rx = ready(&rt, 3, 9);
    expect_no_others(&rt, &mut rx);
    take(&rt, &mut rx, Step::Number(2, LATE));
    expect_no_others(&rt, &mut rx);
    play(&rt, &mut rx, STEPS);
    expect_no_others(&rt, &mut rx);
    take(&rt, &mut rx, Step::ChannelCount(CHANNEL, LATE, Some(1)));
}
