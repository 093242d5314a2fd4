//! Channels and associations that come and go.

use super::story::{Step, expect_story};
use super::{NO_SCI, NOT_USING_SA, OK};
use crate::tests::known_frames::{CHANNEL, CHANNEL_KEY, STATION};
use macs_rxsc::Verdict;

/// Nothing is left of what went.
#[test]
fn what_comes_again_begins_anew(rt: HostRuntime) {
    const STEPS: &[Step] = &[
        // An association that is installed again starts over, whatever was seen before.
        Step::Ready(1, 1),
        Step::Install(CHANNEL, 3, CHANNEL_KEY, 30, 40),
        Step::Number(5, Verdict::HeldBack),
        Step::Remove(CHANNEL, 2),
        Step::Association(CHANNEL, 2, None),
        Step::Need(4, None),
        Step::Number(5, NOT_USING_SA),
        Step::Install(CHANNEL, 2, CHANNEL_KEY, 4, 7),
        Step::Numbers(4, 4),
        Step::Need(4, None),
        Step::Number(6, OK),
        Step::Numbers(7, 7),
        Step::ChannelCount(CHANNEL, OK, Some(1)),
        Step::ChannelCount(CHANNEL, NOT_USING_SA, Some(1)),
        Step::Association(CHANNEL, 3, Some((30, 30))),

        // A channel goes with its associations and counters, and comes again without them.
        Step::Ready(1, 9),
        Step::Add(STATION),
        Step::Install(STATION, 2, CHANNEL_KEY, 11, 12),
        Step::Number(5, OK),
        Step::ChannelCount(CHANNEL, OK, Some(1)),
        Step::Drop(CHANNEL),
        Step::Association(CHANNEL, 2, None),
        Step::ChannelCount(CHANNEL, OK, None),
        Step::Number(6, NO_SCI),
        Step::Add(CHANNEL),
        Step::Association(CHANNEL, 2, None),
        Step::ChannelCount(CHANNEL, OK, Some(0)),
        Step::Number(6, NOT_USING_SA),
        Step::ChannelCount(CHANNEL, NOT_USING_SA, Some(1)),
        Step::Count(OK, 1),
        Step::Count(NO_SCI, 1),
        Step::Association(STATION, 2, Some((11, 11))),
        Step::ChannelCount(STATION, OK, Some(0)),
    ];
    expect_story(&rt, STEPS);
}
