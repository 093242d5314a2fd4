//! Replay windows, and frames that are held back, worked out by hand from the rules.

use super::frames::{Change, Security, Source};
use super::story::{Step, expect_story, take};
use super::{DELAYED, LATE, OK};
use crate::tests::END;
use crate::tests::known_frames::{CHANNEL, CHANNEL_KEY, STATION};
use macs_config::Validate;
use macs_rxsc::{Rx, Verdict};
use std::process::Abort;

/// Windows of no number, of five numbers and of all.
#[test]
fn windows(rt: HostRuntime) {
    const STEPS: &[Step] = &[
        Step::Ready(1, 1),
        Step::Number(5, Verdict::HeldBack),
        Step::Numbers(1, 1),
        Step::Raise(4, CHANNEL, 2, 5),
        Step::Number(9, Verdict::HeldBack),
        Step::Numbers(1, 1),
        Step::Need(4, Some((CHANNEL, 2, 9))),
        Step::Number(5, OK),
        Step::Numbers(6, 6),
        Step::Number(5, LATE),
        Step::Number(4, LATE),
        Step::Number(7, OK),
        Step::Numbers(8, 8),
        Step::Count(Verdict::HeldBack, 0),
        Step::Count(OK, 2),
        Step::ChannelCount(CHANNEL, LATE, Some(2)),

        // A narrower window raises the lowest acceptable number, and a wider one leaves it.
        Step::Ready(1, 1),
        Step::Policy(Validate::Strict, true, 5),
        Step::Number(10, Verdict::HeldBack),
        Step::Raise(4, CHANNEL, 2, 10),
        Step::Number(10, OK),
        Step::Numbers(11, 6),
        Step::Number(8, OK),
        Step::Number(8, OK),
        Step::Policy(Validate::Strict, true, 0),
        Step::Numbers(11, 11),
        Step::Number(8, LATE),
        Step::Policy(Validate::Strict, true, 100),
        Step::Numbers(11, 11),
        Step::Number(8, LATE),
        Step::ChannelCount(CHANNEL, OK, Some(3)),
        Step::ChannelCount(CHANNEL, LATE, Some(2)),
        Step::Ready(1, END),
        Step::Policy(Validate::Strict, true, 0xffff_ffff),
        Step::Number(1, OK),
        Step::Numbers(2, 1),
        Step::Number(0xffff_ffff, OK),
        Step::Numbers(END, 1),
        Step::Number(1, OK),
        Step::Number(0xffff_ffff, OK),
        Step::Policy(Validate::Strict, true, 0),
        Step::Numbers(END, END),
        Step::Number(0xffff_ffff, LATE),
    ];
    expect_story(&rt, STEPS);
}

/// With replay protection off, frames below the lowest acceptable number are delayed.
#[test]
fn replay_protection_off(rt: HostRuntime) {
    const STEPS: &[Step] = &[
        Step::Ready(3, 3),
        Step::Policy(Validate::Strict, false, 0),
        Step::Number(5, Verdict::HeldBack),
        Step::Raise(4, CHANNEL, 2, 5),
        Step::Number(5, OK),
        Step::Numbers(6, 6),
        Step::Number(5, DELAYED),
        Step::Number(1, DELAYED),
        Step::Numbers(6, 6),
        Step::ChannelCount(CHANNEL, DELAYED, Some(2)),
        Step::Policy(Validate::Strict, true, 0),
        Step::Number(5, LATE),

        // A window that is set while replay protection is off holds when it is on again.
        Step::Ready(1, END),
        Step::Policy(Validate::Strict, true, 5),
        Step::Number(10, OK),
        Step::Numbers(11, 6),
        Step::Policy(Validate::Strict, false, 2),
        Step::Numbers(11, 9),
        Step::Number(8, DELAYED),
        Step::Policy(Validate::Strict, true, 2),
        Step::Number(8, LATE),
        Step::Number(9, OK),
    ];
    expect_story(&rt, STEPS);
}

const CHANNELS: [[u8; 8]; 2] = [STATION, CHANNEL];

const ASSOCIATIONS: [u8; 4] = [0, 1, 2, 3];

/// An association of a channel whose next number is 11.
fn install_and_receive(rt: &impl Abort, rx: &mut Rx, sci: [u8; 8], association: u8) {
    let source = Source::Sealed(sci, association, 10, Security::Integrity, 62);
    take(rt, rx, Step::Install(sci, association, CHANNEL_KEY, 1, END));
    take(rt, rx, Step::Plain(source, Change::Nothing, OK));
}

/// Each association of both channels has these numbers.
fn expect_each(rt: &impl Abort, rx: &mut Rx, next: u64, lowest: u64) {
    for sci in CHANNELS {
        for association in ASSOCIATIONS {
            let numbers = Some((next, lowest));
            take(rt, rx, Step::Association(sci, association, numbers));
        }
    }
}

/// A change of the window moves every association of every channel.
#[test]
fn window_of_all_associations(rt: HostRuntime) {
    let mut rx = Rx::new();
    take(&rt, &mut rx, Step::Policy(Validate::Strict, true, 5));
    for sci in CHANNELS {
        take(&rt, &mut rx, Step::Add(sci));
        for association in ASSOCIATIONS {
            install_and_receive(&rt, &mut rx, sci, association);
        }
    }
    expect_each(&rt, &mut rx, 11, 6);
    take(&rt, &mut rx, Step::Policy(Validate::Strict, true, 2));
    expect_each(&rt, &mut rx, 11, 9);
}
