//! Which channel a frame names (IEEE Std 802.1AE-2018, 9.5 and 9.9).

use super::frames::{Change, Source};
use super::story::{Step, expect_story};
use super::{NO_SCI, NOT_VALID, OK, UNKNOWN_SCI, UNUSED_SA};
use crate::tests::END;
use crate::tests::known_frames::{
    CHANNEL, CHANNEL_KEY, END_STATION, END_STATION_PLAIN, IMPLICIT, SHORTEST_PLAIN, STATION,
    STATION_KEY,
};
use macs_config::Validate;

/// Frames that name no channel.
#[test]
fn implicit_names(rt: HostRuntime) {
    const FRAME: Source = Source::These(IMPLICIT);
    const CLEAR: Change = Change::Octet(14, 0x01);
    const BARE: &[u8] = b"\xe2\x01\x06\xd7\xcd\x0d\xf0\x76\x1e\x8d\xcd\x3d\x4e\x24";
    const STEPS: &[Step] = &[
        // A frame that names no channel is one of the only channel.
        Step::Anew,
        Step::Receive(FRAME, Change::Nothing, NO_SCI, &[]),
        Step::Add(CHANNEL),
        Step::Install(CHANNEL, 1, STATION_KEY, 1, 2),
        Step::Receive(FRAME, Change::Nothing, OK, SHORTEST_PLAIN),
        Step::Add(STATION),
        Step::Receive(FRAME, Change::Nothing, NO_SCI, &[]),
        Step::Drop(CHANNEL),
        Step::Install(STATION, 1, STATION_KEY, 1, 2),
        Step::Receive(FRAME, Change::Nothing, NOT_VALID, &[]),
        Step::Count(NO_SCI, 2),
        Step::ChannelCount(STATION, NOT_VALID, Some(1)),

        // C is clear in this frame, so that it is given without SecTAG and ICV.
        Step::Anew,
        Step::Policy(Validate::Check, true, 0),
        Step::Receive(FRAME, CLEAR, UNKNOWN_SCI, BARE),
        Step::Add(CHANNEL),
        Step::Receive(FRAME, CLEAR, UNUSED_SA, BARE),
        Step::Add(STATION),
        Step::Receive(FRAME, CLEAR, UNKNOWN_SCI, BARE),
        Step::Count(UNKNOWN_SCI, 2),
        Step::ChannelCount(CHANNEL, UNUSED_SA, Some(1)),
    ];
    expect_story(&rt, STEPS);
}

/// An end station's frame is one of the channel of its source address with port 00-01.
#[test]
fn end_stations(rt: HostRuntime) {
    const FRAME: Source = Source::These(END_STATION);
    const ANOTHER_PORT: [u8; 8] = [0xf0, 0x76, 0x1e, 0x8d, 0xcd, 0x3d, 0, 2];
    const STEPS: &[Step] = &[
        Step::Add(CHANNEL),
        Step::Install(CHANNEL, 0, STATION_KEY, 1, END),
        Step::Receive(FRAME, Change::Nothing, NO_SCI, &[]),
        Step::Add(ANOTHER_PORT),
        Step::Install(ANOTHER_PORT, 0, STATION_KEY, 1, END),
        Step::Receive(FRAME, Change::Nothing, NO_SCI, &[]),
        Step::Add(STATION),
        Step::Install(STATION, 0, STATION_KEY, 1, END),
        Step::Receive(FRAME, Change::Nothing, OK, END_STATION_PLAIN),
        Step::Association(STATION, 0, Some((0x76d4_57ee, 0x76d4_57ee))),
        Step::Association(CHANNEL, 0, Some((1, 1))),
        Step::Association(ANOTHER_PORT, 0, Some((1, 1))),
        Step::ChannelCount(STATION, OK, Some(1)),
        Step::ChannelCount(CHANNEL, OK, Some(0)),
        Step::Receive(FRAME, Change::Octet(11, 0x3e), NO_SCI, &[]),
    ];
    expect_story(&rt, STEPS);
}
