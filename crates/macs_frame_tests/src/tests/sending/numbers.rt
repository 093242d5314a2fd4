//! Packet numbers and ceilings.

use super::fixture::channel;
use super::story::{Plain, Step, play};
use crate::tests::END;
use crate::tests::known_frames::STATION;
use macs_config::SciMode;
use macs_txsc::TxFault;
use std::process::Abort;

/// The steps, from a channel without associations on.
fn expect_story(rt: &impl Abort, steps: &[Step]) {
    let mut tx = channel(rt, STATION, SciMode::Explicit);
    play(rt, &mut tx, steps);
}

/// The last number goes out once, and no other comes after it.
#[test]
fn ends_at_the_last_number(rt: HostRuntime) {
    const STEPS: &[Step] = &[
        Step::Install(1, END - 1, END),
        Step::Select(1),
        Step::Needs(65_536, None),
        Step::Sends(Plain::Published, Ok(0xffff_ffff)),
        Step::Sends(Plain::Published, Err(TxFault::Exhausted)),
        Step::Next(None, Some(END), None, None),
        Step::Needs(65_536, None),
    ];
    expect_story(&rt, STEPS);
}

/// Half of a block of 4, of 3 and of 1 are 2, 1 and 0 numbers.
#[test]
fn asks_for_numbers(rt: HostRuntime) {
    const STEPS: &[Step] = &[
        Step::Install(2, 1, 5),
        Step::Needs(65_536, None),
        Step::Select(2),
        Step::Needs(4, None),
        Step::Sends(Plain::Published, Ok(1)),
        Step::Needs(4, None),
        Step::Needs(3, None),
        Step::Needs(1, None),
        Step::Sends(Plain::Published, Ok(2)),
        Step::Needs(4, Some(2)),
        Step::Needs(3, None),
        Step::Needs(1, None),
        Step::Sends(Plain::Published, Ok(3)),
        Step::Needs(4, Some(2)),
        Step::Needs(3, Some(2)),
        Step::Needs(1, None),
        Step::Sends(Plain::Published, Ok(4)),
        Step::Needs(4, Some(2)),
        Step::Needs(3, Some(2)),
        Step::Needs(1, Some(2)),
        Step::Sends(Plain::Published, Err(TxFault::NoNumber)),
        Step::Needs(4, Some(2)),
        Step::Needs(3, Some(2)),
        Step::Needs(1, Some(2)),
        Step::Raise(2, 9),
        Step::Needs(4, None),
        Step::Sends(Plain::Published, Ok(5)),
        Step::Needs(4, None),
        Step::Needs(3, None),
        Step::Needs(1, None),
    ];
    expect_story(&rt, STEPS);
}

/// A ceiling just below the end of the numbers may still be raised.
#[test]
fn asks_up_to_the_end(rt: HostRuntime) {
    const STEPS: &[Step] = &[
        Step::Install(0, END - 2, END - 1),
        Step::Select(0),
        Step::Needs(4, Some(0)),
    ];
    expect_story(&rt, STEPS);
}

/// A frame uses a number of the association that it goes out under, and of no other.
#[test]
fn keeps_associations_apart(rt: HostRuntime) {
    const STEPS: &[Step] = &[
        Step::Install(0, 10, 20),
        Step::Install(3, 30, 40),
        Step::Sends(Plain::Published, Err(TxFault::NoEncodingSa)),
        Step::Next(Some(10), None, None, Some(30)),
        Step::Select(0),
        Step::Sends(Plain::Published, Ok(10)),
        Step::Next(Some(11), None, None, Some(30)),
        Step::Select(3),
        Step::Sends(Plain::Published, Ok(30)),
        Step::Next(Some(11), None, None, Some(31)),
        Step::Remove(0),
        Step::Sends(Plain::Published, Ok(31)),
        Step::Next(None, None, None, Some(32)),
        Step::Install(0, 1, 2),
        Step::Select(0),
        Step::Sends(Plain::Published, Ok(1)),
        Step::Next(Some(2), None, None, Some(32)),
    ];
    expect_story(&rt, STEPS);
}
