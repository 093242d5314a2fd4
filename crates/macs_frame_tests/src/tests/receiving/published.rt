//! Published frames, and what becomes of them where they are changed or nothing stands for them.

use super::fixture::{add, install};
use super::frames::{Change, OFFSET_30, OFFSET_50, OFFSET_PLAIN, Source};
use super::story::{Step, expect_story, take};
use super::{INVALID, NO_SCI, NOT_USING_SA, NOT_VALID, OK, UNKNOWN_SCI, UNUSED_SA};
use crate::tests::known_frames::{
    CHANNEL, CHANNEL_KEY, CONFIDENTIALITY, CONFIDENTIALITY_PLAIN, INTEGRITY, INTEGRITY_PLAIN,
};
use macs_config::Validate;
use macs_frame::Offset;
use macs_rxsc::{Rx, Verdict};
use std::process::Abort;

const CLEAR: Source = Source::These(INTEGRITY);

const ENCRYPTED: Source = Source::These(CONFIDENTIALITY);

/// C is set in the frame in the clear, E is as it is: its ICV is another one's.
const MARKED: Change = Change::Octet(14, 0x26);

/// A frame is held back until its packet number is reserved, and is then given as its plain frame.
#[test]
fn receives_published_frames(rt: HostRuntime) {
    const STEPS: &[Step] = &[
        Step::Ready(1, 1),
        Step::Receive(CLEAR, Change::Nothing, Verdict::HeldBack, &[]),
        Step::Numbers(1, 1),
        Step::Raise(4, CHANNEL, 2, 0xb2c2_8465),
        Step::Receive(CLEAR, Change::Nothing, OK, INTEGRITY_PLAIN),
        Step::Numbers(0xb2c2_8466, 0xb2c2_8466),
        Step::Count(OK, 1),
        Step::ChannelCount(CHANNEL, OK, Some(1)),
        Step::Ready(1, 1),
        Step::Receive(ENCRYPTED, Change::Nothing, Verdict::HeldBack, &[]),
        Step::Numbers(1, 1),
        Step::Raise(4, CHANNEL, 2, 0xb2c2_8465),
        Step::Receive(ENCRYPTED, Change::Nothing, OK, CONFIDENTIALITY_PLAIN),
        Step::Numbers(0xb2c2_8466, 0xb2c2_8466),
        Step::Count(OK, 1),
        Step::ChannelCount(CHANNEL, OK, Some(1)),
    ];
    expect_story(&rt, STEPS);
}

/// Frames that do not verify, or that no channel or no association stands for.
#[test]
fn refuses_frames(rt: HostRuntime) {
    const STEPS: &[Step] = &[
        // A frame that does not verify is given where validation is not strict and C is clear.
        Step::Ready(1, 1),
        Step::Receive(CLEAR, Change::LastBit, NOT_VALID, &[]),
        Step::Receive(ENCRYPTED, Change::LastBit, NOT_VALID, &[]),
        Step::Policy(Validate::Check, true, 0),
        Step::Receive(CLEAR, Change::LastBit, INVALID, INTEGRITY_PLAIN),
        Step::Receive(ENCRYPTED, Change::LastBit, NOT_VALID, &[]),
        Step::Receive(CLEAR, MARKED, NOT_VALID, &[]),
        Step::Numbers(1, 1),
        Step::Need(4, None),
        Step::Count(NOT_VALID, 4),
        Step::Count(INVALID, 1),
        Step::ChannelCount(CHANNEL, NOT_VALID, Some(4)),
        Step::ChannelCount(CHANNEL, INVALID, Some(1)),

        // No channel exists.
        Step::Anew,
        Step::Receive(CLEAR, Change::Nothing, NO_SCI, &[]),
        Step::Receive(ENCRYPTED, Change::Nothing, NO_SCI, &[]),
        Step::Policy(Validate::Check, true, 0),
        Step::Receive(CLEAR, Change::Nothing, UNKNOWN_SCI, INTEGRITY_PLAIN),
        Step::Receive(ENCRYPTED, Change::Nothing, NO_SCI, &[]),
        Step::Receive(CLEAR, MARKED, NO_SCI, &[]),
        Step::Count(NO_SCI, 4),
        Step::Count(UNKNOWN_SCI, 1),
        Step::ChannelCount(CHANNEL, NO_SCI, None),

        // An association of the channel with another number does not serve.
        Step::Anew,
        Step::Add(CHANNEL),
        Step::Install(CHANNEL, 3, CHANNEL_KEY, 1, 1),
        Step::Receive(CLEAR, Change::Nothing, NOT_USING_SA, &[]),
        Step::Receive(ENCRYPTED, Change::Nothing, NOT_USING_SA, &[]),
        Step::Policy(Validate::Check, true, 0),
        Step::Receive(CLEAR, Change::Nothing, UNUSED_SA, INTEGRITY_PLAIN),
        Step::Receive(ENCRYPTED, Change::Nothing, NOT_USING_SA, &[]),
        Step::Receive(CLEAR, MARKED, NOT_USING_SA, &[]),
        Step::ChannelCount(CHANNEL, NOT_USING_SA, Some(4)),
        Step::ChannelCount(CHANNEL, UNUSED_SA, Some(1)),
        Step::ChannelCount(CHANNEL, OK, Some(0)),
        Step::Association(CHANNEL, 3, Some((1, 1))),
    ];
    expect_story(&rt, STEPS);
}

/// What becomes of a frame to an association of this confidentiality offset.
fn expect_at_offset(rt: &impl Abort, frame: &'static [u8], offset: Offset, verdict: Verdict) {
    let given = if verdict == OK { OFFSET_PLAIN } else { &[] };
    let mut rx = Rx::new();
    add(rt, &mut rx, CHANNEL);
    install(rt, &mut rx, CHANNEL, 2, &CHANNEL_KEY, offset, 1, 9);
    let source = Source::These(frame);
    take(
        rt,
        &mut rx,
        Step::Receive(source, Change::Nothing, verdict, given),
    );
}

/// A frame is taken by an association of its confidentiality offset, and by none of the others.
#[test]
fn confidentiality_offsets(rt: HostRuntime) {
    for (offset, of_30, of_50) in [
        (Offset::Zero, NOT_VALID, NOT_VALID),
        (Offset::Thirty, OK, NOT_VALID),
        (Offset::Fifty, NOT_VALID, OK),
    ] {
        expect_at_offset(&rt, OFFSET_30, offset, of_30);
        expect_at_offset(&rt, OFFSET_50, offset, of_50);
    }
}
