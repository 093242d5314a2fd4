//! Verdicts on frames under a key of 256 bits: those that frames under one of 128 bits have.

use super::frames::{Change, Source};
use super::story::{Step, given, play, take};
use super::{INVALID, LATE, NOT_VALID, OK};
use crate::tests::known_frames::CHANNEL;
use crate::tests::long_frames::{
    CLEAR_5, KEY, NUMBER_4, NUMBER_5, NUMBER_7, NUMBER_8, NUMBER_10, NUMBERED_PLAIN,
};
use macs_config::Validate;
use macs_rxsc::{Rx, Verdict};
use std::process::Abort;

/// The channel with its association 2 under the key. Its next number and its ceiling are 1.
fn ready(rt: &impl Abort) -> Rx {
    const STEPS: &[Step] = &[Step::Add(CHANNEL), Step::Install(CHANNEL, 2, KEY, 1, 1)];
    let mut rx = Rx::new();
    play(rt, &mut rx, STEPS);
    rx
}

/// The frame has this verdict after the change, and is given as its plain frame where it is
/// delivered.
fn expect(rt: &impl Abort, rx: &mut Rx, frame: &'static [u8], change: Change, verdict: Verdict) {
    let plain = given(verdict, NUMBERED_PLAIN);
    take(
        rt,
        rx,
        Step::Receive(Source::These(frame), change, verdict, plain),
    );
}

/// The frames have these verdicts as they are, one after another.
fn expect_each(rt: &impl Abort, rx: &mut Rx, frames: &[(&'static [u8], Verdict)]) {
    for &(frame, verdict) in frames {
        expect(rt, rx, frame, Change::Nothing, verdict);
    }
}

#[test]
fn no_window(rt: HostRuntime) {
    const FRAMES: &[(&[u8], Verdict)] = &[
        (NUMBER_5, OK),
        (NUMBER_5, LATE),
        (NUMBER_4, LATE),
        (NUMBER_7, OK),
    ];
    let mut rx = ready(&rt);
    expect_each(&rt, &mut rx, &[(NUMBER_5, Verdict::HeldBack)]);
    take(&rt, &mut rx, Step::Raise(4, CHANNEL, 2, 5));
    expect_each(&rt, &mut rx, FRAMES);
    take(&rt, &mut rx, Step::Numbers(8, 8));
}

#[test]
fn window_of_five(rt: HostRuntime) {
    const WIDE: Step = Step::Policy(Validate::Strict, true, 5);
    const NARROW: Step = Step::Policy(Validate::Strict, true, 0);
    let mut rx = ready(&rt);
    take(&rt, &mut rx, WIDE);
    expect_each(&rt, &mut rx, &[(NUMBER_10, Verdict::HeldBack)]);
    take(&rt, &mut rx, Step::Raise(4, CHANNEL, 2, 10));
    expect_each(&rt, &mut rx, &[(NUMBER_10, OK)]);
    take(&rt, &mut rx, Step::Numbers(11, 6));
    expect_each(&rt, &mut rx, &[(NUMBER_8, OK), (NUMBER_8, OK)]);
    take(&rt, &mut rx, NARROW);
    take(&rt, &mut rx, Step::Numbers(11, 11));
    expect_each(&rt, &mut rx, &[(NUMBER_8, LATE)]);
}

/// A frame whose ICV is changed is given where validation is not strict and C is clear.
#[test]
fn changed_frames(rt: HostRuntime) {
    for (validate, of_clear) in [(Validate::Strict, NOT_VALID), (Validate::Check, INVALID)] {
        let mut rx = ready(&rt);
        take(&rt, &mut rx, Step::Policy(validate, true, 0));
        expect(&rt, &mut rx, CLEAR_5, Change::LastBit, of_clear);
        expect(&rt, &mut rx, NUMBER_5, Change::LastBit, NOT_VALID);
        take(&rt, &mut rx, Step::Numbers(1, 1));
    }
}
