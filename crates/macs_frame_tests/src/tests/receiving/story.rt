//! Stories of receive channels: what is done to them, and what is expected of them, step by step.

use super::fixture::{add, drop_channel, install, need_of, numbers_of, raise, receive, remove};
use super::frames::{Change, PLAIN, Security, Source, frame_of, numbered};
use crate::tests::known_frames::{CHANNEL, CHANNEL_KEY};
use macs_aes::Key;
use macs_config::Validate;
use macs_frame::{FrameBuf, Offset, Sci};
use macs_rxsc::{Rx, Verdict};
use std::process::Abort;

/// A step of a story. Channels are named by their SCIs, associations by their numbers.
#[derive(Clone, Copy)]
pub(super) enum Step {
    /// All starts over, with no channel.
    Anew,
    /// All starts over, with the channel and its association 2: its next number and its ceiling.
    Ready(u64, u64),
    /// How frames are validated, whether replay protection is on, and its window.
    Policy(Validate, bool, u32),
    Add([u8; 8]),
    Drop([u8; 8]),
    /// A new association, by its key, its next number and its ceiling.
    Install([u8; 8], u8, Key, u64, u64),
    Remove([u8; 8], u8),
    /// With blocks of this size the first need is of this association and this number, and is
    /// served.
    Raise(u32, [u8; 8], u8, u32),
    /// A frame has this verdict, and this is given.
    Receive(Source, Change, Verdict, &'static [u8]),
    /// A frame has this verdict, and `PLAIN` is given where it is delivered.
    Plain(Source, Change, Verdict),
    /// So many octets of 7, which are no SecTAG, have this verdict, and are given whole where they
    /// are delivered.
    Untagged(usize, Verdict),
    /// A frame has so many octets.
    Length(Source, Change, usize),
    /// A frame of the channel under association 2 and this number has this verdict.
    Number(u32, Verdict),
    /// A frame of this association, which is not encrypted, is held back.
    Held([u8; 8], u8, u32),
    /// The next and the lowest acceptable number of association 2 of the channel.
    Numbers(u64, u64),
    /// The next and the lowest acceptable number of an association, `None` where there is none.
    Association([u8; 8], u8, Option<(u64, u64)>),
    /// With blocks of this size the first need is of this association and this number.
    Need(u32, Option<([u8; 8], u8, u32)>),
    /// How often a verdict was given.
    Count(Verdict, u64),
    /// How often a verdict was given on frames of a channel, `None` where that does not exist.
    ChannelCount([u8; 8], Verdict, Option<u64>),
}

/// Takes the steps one after another.
pub(super) fn play(rt: &impl Abort, rx: &mut Rx, steps: &[Step]) {
    for &step in steps {
        take(rt, rx, step);
    }
}

/// The steps, from no channel on.
pub(super) fn expect_story(rt: &impl Abort, steps: &[Step]) {
    play(rt, &mut Rx::new(), steps);
}

/// The channel with its association 2: these are the next number and the ceiling.
pub(super) fn ready(rt: &impl Abort, next: u64, ceiling: u64) -> Rx {
    let mut rx = Rx::new();
    add(rt, &mut rx, CHANNEL);
    install(
        rt,
        &mut rx,
        CHANNEL,
        2,
        &CHANNEL_KEY,
        Offset::Zero,
        next,
        ceiling,
    );
    rx
}

/// Takes one step.
pub(super) fn take(rt: &impl Abort, rx: &mut Rx, step: Step) {
    match step {
        Step::Anew => *rx = Rx::new(),
        Step::Ready(next, ceiling) => *rx = ready(rt, next, ceiling),
        Step::Policy(validate, on, window) => rx.set_policy(validate, on, window),
        Step::Add(sci) => add(rt, rx, sci),
        Step::Drop(sci) => drop_channel(rt, rx, sci),
        Step::Install(sci, association, key, next, ceiling) => {
            install(rt, rx, sci, association, &key, Offset::Zero, next, ceiling)
        }
        Step::Remove(sci, association) => remove(rt, rx, sci, association),
        Step::Raise(block, sci, association, number) => {
            expect_need(rt, rx, block, Some((sci, association, number)));
            raise(rt, rx, block);
        }
        Step::Receive(source, change, verdict, given) => {
            let frame = frame_of(rt, source, change);
            expect_verdict(rt, rx, frame.as_slice(), verdict, given);
        }
        Step::Plain(source, change, verdict) => expect_plain(rt, rx, source, change, verdict),
        Step::Untagged(octets, verdict) => expect_untagged(rt, rx, octets, verdict),
        Step::Length(source, change, octets) => {
            assert_eq!(rt; frame_of(rt, source, change).len(), octets)
        }
        Step::Number(number, verdict) => {
            expect_plain(rt, rx, numbered(number), Change::Nothing, verdict)
        }
        Step::Held(sci, association, number) => {
            let source = Source::Sealed(sci, association, number, Security::Integrity, 62);
            expect_plain(rt, rx, source, Change::Nothing, Verdict::HeldBack);
        }
        Step::Numbers(next, lowest) => {
            expect_association(rt, rx, CHANNEL, 2, Some((next, lowest)))
        }
        Step::Association(sci, association, numbers) => {
            expect_association(rt, rx, sci, association, numbers)
        }
        Step::Need(block, need) => expect_need(rt, rx, block, need),
        Step::Count(verdict, count) => expect_count(rt, rx, verdict, count),
        Step::ChannelCount(sci, verdict, count) => {
            expect_channel_count(rt, rx, sci, verdict, count)
        }
    }
}

/// A frame has this verdict, and this is given.
fn expect_verdict(rt: &impl Abort, rx: &mut Rx, frame: &[u8], verdict: Verdict, given: &[u8]) {
    let mut out = FrameBuf::new();
    assert_eq!(rt; receive(rx, frame, &mut out), verdict);
    assert_eq!(rt; out.as_slice(), given);
}

/// What is given, if anything is: this is the frame that is delivered.
pub(super) fn given(verdict: Verdict, delivered: &[u8]) -> &[u8] {
    match verdict {
        Verdict::Delivered(_) => delivered,
        _ => &[],
    }
}

fn expect_plain(rt: &impl Abort, rx: &mut Rx, source: Source, change: Change, verdict: Verdict) {
    let frame = frame_of(rt, source, change);
    expect_verdict(rt, rx, frame.as_slice(), verdict, given(verdict, PLAIN));
}

fn expect_untagged(rt: &impl Abort, rx: &mut Rx, octets: usize, verdict: Verdict) {
    let sevens = [7; 9217];
    let frame = sevens.get(..octets).expect(rt, "octets");
    expect_verdict(rt, rx, frame, verdict, given(verdict, frame));
}

fn expect_association(
    rt: &impl Abort,
    rx: &Rx,
    sci: [u8; 8],
    association: u8,
    numbers: Option<(u64, u64)>,
) {
    assert_eq!(rt; numbers_of(rt, rx, sci, association), numbers);
}

fn expect_need(rt: &impl Abort, rx: &Rx, block: u32, need: Option<([u8; 8], u8, u32)>) {
    assert_eq!(rt; need_of(rx, block), need, "block of {block}");
}

fn expect_count(rt: &impl Abort, rx: &Rx, verdict: Verdict, count: u64) {
    assert_eq!(rt; rx.count(verdict), count, "{verdict:?}");
}

fn expect_channel_count(
    rt: &impl Abort,
    rx: &Rx,
    sci: [u8; 8],
    verdict: Verdict,
    count: Option<u64>,
) {
    assert_eq!(rt; rx.channel_count(Sci(sci), verdict), count, "{verdict:?}");
}
