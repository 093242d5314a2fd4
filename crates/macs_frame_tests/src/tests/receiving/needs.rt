//! Which ceiling is to be raised.

use super::story::{Step, expect_story};
use super::{DELAYED, LATE, OK};
use crate::tests::END;
use crate::tests::known_frames::{CHANNEL, CHANNEL_KEY, STATION};
use macs_config::Validate;
use macs_rxsc::Verdict;

/// What was seen is what verified, and the greatest number of it is asked for.
#[test]
fn needs_the_greatest_number(rt: HostRuntime) {
    const STEPS: &[Step] = &[
        // The greatest number that was seen is asked for. It was not the last, and the next one is
        // far below.
        Step::Ready(1, 1),
        Step::Need(4, None),
        Step::Number(5, Verdict::HeldBack),
        Step::Number(3, Verdict::HeldBack),
        Step::Raise(4, CHANNEL, 2, 5),
        Step::Need(4, None),
        Step::Number(20, Verdict::HeldBack),
        Step::Numbers(1, 1),
        Step::Need(4, Some((CHANNEL, 2, 20))),
        Step::Number(8, OK),
        Step::Need(4, Some((CHANNEL, 2, 20))),

        // A late frame is not verified, so that its number is not seen.
        Step::Ready(5, 5),
        Step::Number(3, LATE),
        Step::Need(4, None),
        // A delayed frame is verified, so that its number is seen, also where it is below the
        // start.
        Step::Ready(3, 3),
        Step::Policy(Validate::Strict, false, 0),
        Step::Number(1, DELAYED),
        Step::Numbers(3, 3),
        Step::Need(2, None),
        Step::Need(4, Some((CHANNEL, 2, 1))),
    ];
    expect_story(&rt, STEPS);
}

/// The first of several needs is that of the lowest SCI and of its lowest association.
#[test]
fn needs_in_order(rt: HostRuntime) {
    const STEPS: &[Step] = &[
        Step::Add(STATION),
        Step::Add(CHANNEL),
        Step::Install(STATION, 0, CHANNEL_KEY, 1, 1),
        Step::Held(STATION, 0, 20),
        Step::Need(4, Some((STATION, 0, 20))),
        Step::Install(CHANNEL, 3, CHANNEL_KEY, 1, 1),
        Step::Held(CHANNEL, 3, 10),
        Step::Need(4, Some((CHANNEL, 3, 10))),
        Step::Install(CHANNEL, 2, CHANNEL_KEY, 1, 1),
        Step::Held(CHANNEL, 2, 10),
        Step::Need(4, Some((CHANNEL, 2, 10))),
        Step::Install(CHANNEL, 1, CHANNEL_KEY, 1, 1),
        Step::Held(CHANNEL, 1, 10),
        Step::Need(4, Some((CHANNEL, 1, 10))),
        Step::Install(CHANNEL, 0, CHANNEL_KEY, 1, 1),
        Step::Held(CHANNEL, 0, 10),
        Step::Need(4, Some((CHANNEL, 0, 10))),
        Step::Raise(4, CHANNEL, 0, 10),
        Step::Raise(4, CHANNEL, 1, 10),
        Step::Raise(4, CHANNEL, 2, 10),
        Step::Raise(4, CHANNEL, 3, 10),
        Step::Raise(4, STATION, 0, 20),
        Step::Need(4, None),
    ];
    expect_story(&rt, STEPS);
}

/// Half a block, rounded down, may be left below the ceiling.
#[test]
fn needs_half_a_block(rt: HostRuntime) {
    const STEPS: &[Step] = &[
        // Half a block of 3 is one number, of 4 two.
        Step::Ready(1, 1),
        Step::Number(9, Verdict::HeldBack),
        Step::Raise(1, CHANNEL, 2, 9),
        Step::Number(7, OK),
        Step::Numbers(8, 8),
        Step::Need(3, None),
        Step::Need(4, Some((CHANNEL, 2, 9))),
        Step::Number(8, OK),
        Step::Need(3, Some((CHANNEL, 2, 9))),
        Step::Need(1, None),

        // A number that was reserved alone leaves no need when it is delivered.
        Step::Ready(1, 1),
        Step::Number(5, Verdict::HeldBack),
        Step::Raise(1, CHANNEL, 2, 5),
        Step::Number(5, OK),
        Step::Numbers(6, 6),
        Step::Need(1, None),
        Step::Need(2, Some((CHANNEL, 2, 5))),
    ];
    expect_story(&rt, STEPS);
}

/// No ceiling is above the end of the numbers.
#[test]
fn needs_up_to_the_end(rt: HostRuntime) {
    const STEPS: &[Step] = &[
        // A ceiling is raised to the end of the numbers, and then no more.
        Step::Ready(END - 3, END - 3),
        Step::Number(0xffff_ffff, Verdict::HeldBack),
        Step::Raise(4, CHANNEL, 2, 0xffff_ffff),
        Step::Need(65_536, None),
        Step::Number(0xffff_ffff, OK),
        Step::Numbers(END, END),
        Step::Need(65_536, None),

        // With the ceiling at the greatest number, that number is still to be had.
        Step::Ready(END - 3, END - 1),
        Step::Number(0xffff_fffe, OK),
        Step::Numbers(END - 1, END - 1),
        Step::Need(4, Some((CHANNEL, 2, 0xffff_fffe))),
        Step::Number(0xffff_ffff, Verdict::HeldBack),
        Step::Raise(4, CHANNEL, 2, 0xffff_ffff),
        Step::Need(4, None),
        Step::Number(0xffff_ffff, OK),
        Step::Numbers(END, END),
        Step::Need(4, None),
    ];
    expect_story(&rt, STEPS);
}
