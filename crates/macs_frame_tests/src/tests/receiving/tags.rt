//! SecTAGs that break a rule, and frames of lengths at which SL decides (IEEE Std 802.1AE-2018, 9.7
//! and 9.12).

use super::frames::{Change, NO_NUMBER, ONE_OCTET, ONE_OCTET_PLAIN, Security, Source, UNVERIFIED};
use super::story::{Step, expect_story, play, ready, take};
use super::{
    BAD_TAG, FOR_KAY, INVALID, NO_TAG, OK, OVERSIZE, RUNT, UNKNOWN_SCI, UNTAGGED, UNUSED_SA,
};
use crate::tests::END;
use crate::tests::known_frames::{
    CHANNEL, INTEGRITY, INTEGRITY_PLAIN, SHORTEST, SHORTEST_PLAIN, STATION, STATION_KEY,
};
use macs_config::Validate;
use macs_rxsc::{Rx, Verdict};
use std::process::Abort;

const PUBLISHED: Source = Source::These(INTEGRITY);

/// The published frame with one octet of its SecTAG changed, with packet number 0 or cut.
const FAULTS: &[Step] = &[
    Step::Receive(PUBLISHED, Change::Octet(14, 0xa2), BAD_TAG, &[]),
    Step::Receive(PUBLISHED, Change::Octet(14, 0x62), BAD_TAG, &[]),
    Step::Receive(PUBLISHED, Change::Octet(14, 0x32), BAD_TAG, &[]),
    Step::Receive(PUBLISHED, Change::Octet(15, 0x40), BAD_TAG, &[]),
    Step::Receive(PUBLISHED, Change::Octet(15, 0x80), BAD_TAG, &[]),
    Step::Receive(Source::These(NO_NUMBER), Change::Nothing, BAD_TAG, &[]),
    Step::Receive(PUBLISHED, Change::Cut, BAD_TAG, &[]),
    Step::Receive(PUBLISHED, Change::Octet(14, 0x2a), FOR_KAY, &[]),
];

#[test]
fn faults_of_the_tag(rt: HostRuntime) {
    const COUNTS: &[Step] = &[
        Step::Count(BAD_TAG, 14),
        Step::Count(FOR_KAY, 2),
        Step::Numbers(1, 1),
    ];
    let mut rx = ready(&rt, 1, END);
    for validate in [Validate::Strict, Validate::Check] {
        take(&rt, &mut rx, Step::Policy(validate, true, 0));
        play(&rt, &mut rx, FAULTS);
    }
    play(&rt, &mut rx, COUNTS);
}

#[test]
fn untagged_frames(rt: HostRuntime) {
    const FRAME: Source = Source::These(INTEGRITY_PLAIN);
    const STEPS: &[Step] = &[
        Step::Receive(FRAME, Change::Nothing, NO_TAG, &[]),
        Step::Policy(Validate::Check, false, 0),
        Step::Receive(FRAME, Change::Nothing, UNTAGGED, INTEGRITY_PLAIN),
        Step::Receive(FRAME, Change::Nothing, UNTAGGED, INTEGRITY_PLAIN),
        Step::Count(NO_TAG, 1),
        Step::Count(UNTAGGED, 2),
        // The shortest and the longest frame, and those beyond.
        Step::Anew,
        Step::Policy(Validate::Check, true, 0),
        Step::Untagged(0, RUNT),
        Step::Untagged(13, RUNT),
        Step::Untagged(14, UNTAGGED),
        Step::Untagged(9216, UNTAGGED),
        Step::Untagged(9217, OVERSIZE),
        Step::Count(RUNT, 2),
        Step::Count(OVERSIZE, 1),
    ];
    expect_story(&rt, STEPS);
}

#[test]
fn lengths_of_secure_data(rt: HostRuntime) {
    const LONG: Source = Source::Sealed(CHANNEL, 2, 5, Security::Confidentiality, 60);
    const LONG_SL_PLAIN: &[u8] = b"\xd6\x09\xb1\xf0\x56\x63\x7a\x0d\x46\xdf\x99\x8d\
\x07\x07\x07\x07\x07\x07\x07\x07\x07\x07\x07\x07\x07\x07\x07\x07\x07\x07\x07\x07\x07\x07\x07\x07\x07\
\x07\x07\x07\x07\x07\x07\x07\x07\x07\x07\x07\x07\x07\x07\x07\x07\x07\x07\x07\x07\x07\x07\x07\x07\x07";
    const STEPS: &[Step] = &[
        // SL 0 says 48 octets of Secure Data or more.
        Step::Ready(1, END),
        Step::Length(LONG, Change::Nothing, 92),
        Step::Receive(LONG, Change::Cut, BAD_TAG, &[]),
        Step::Receive(LONG, Change::Nothing, OK, &[7; 60]),
        // An SL that says as many octets as there are is taken also where a sender writes 0.
        Step::Ready(1, END),
        Step::Length(Source::LongSl, Change::Nothing, 94),
        Step::Receive(Source::LongSl, Change::Cut, BAD_TAG, &[]),
        Step::Receive(Source::LongSl, Change::Padding(1), BAD_TAG, &[]),
        Step::Receive(Source::LongSl, Change::Nothing, OK, LONG_SL_PLAIN),
        Step::Numbers(6, 6),
        // A plain frame of 13 octets is given, though none so short is protected or taken without a
        // tag.
        Step::Ready(1, 9),
        Step::Receive(
            Source::These(ONE_OCTET),
            Change::Nothing,
            OK,
            ONE_OCTET_PLAIN,
        ),
        Step::Receive(Source::These(ONE_OCTET_PLAIN), Change::Nothing, RUNT, &[]),
    ];
    expect_story(&rt, STEPS);
}

/// A frame of 46 octets with so much padding has this verdict.
fn expect_padded(rt: &impl Abort, padding: usize, verdict: Verdict) {
    let given = if verdict == OK { SHORTEST_PLAIN } else { &[] };
    let source = Source::These(SHORTEST);
    let mut rx = Rx::new();
    take(rt, &mut rx, Step::Add(STATION));
    take(rt, &mut rx, Step::Install(STATION, 3, STATION_KEY, 1, 2));
    take(
        rt,
        &mut rx,
        Step::Receive(source, Change::Padding(padding), verdict, given),
    );
}

/// A frame is taken as it is or with padding to 60 octets.
#[test]
fn padding_to_60_octets(rt: HostRuntime) {
    for (padding, verdict) in [
        (0, OK),
        (1, BAD_TAG),
        (13, BAD_TAG),
        (14, OK),
        (15, BAD_TAG),
    ] {
        expect_padded(&rt, padding, verdict);
    }
}

#[test]
fn frames_of_60_octets(rt: HostRuntime) {
    const FULL: Source = Source::Sealed(CHANNEL, 2, 5, Security::Integrity, 28);
    const SHORT: Source = Source::Sealed(CHANNEL, 2, 6, Security::Integrity, 27);
    const FRAME: Source = Source::These(UNVERIFIED);
    const PADDED: Change = Change::Padding(14);
    const BARE: &[u8] = b"\xe2\x01\x06\xd7\xcd\x0d\xf0\x76\x1e\x8d\xcd\x3d\xe4\xf1";
    const STEPS: &[Step] = &[
        // 16 octets of Secure Data fill a frame of 60 octets, 15 leave one octet of padding.
        Step::Ready(1, END),
        Step::Length(FULL, Change::Nothing, 60),
        Step::Receive(FULL, Change::Nothing, OK, &[7; 28]),
        Step::Length(SHORT, Change::Padding(1), 60),
        Step::Receive(SHORT, Change::Padding(1), OK, &[7; 27]),
        Step::Numbers(7, 7),
        // A padded frame that does not verify is given without padding, SecTAG and ICV. C is clear
        // in it.
        Step::Anew,
        Step::Length(FRAME, PADDED, 60),
        Step::Policy(Validate::Check, true, 0),
        Step::Receive(FRAME, PADDED, UNKNOWN_SCI, BARE),
        Step::Add(STATION),
        Step::Receive(FRAME, PADDED, UNUSED_SA, BARE),
        Step::Install(STATION, 3, STATION_KEY, 1, 2),
        Step::Receive(FRAME, PADDED, INVALID, BARE),
    ];
    expect_story(&rt, STEPS);
}
