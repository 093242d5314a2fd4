//! Stories of a transmit channel: what is done to it, and what is expected of it, step by step.

use super::HIDDEN;
use super::fixture::{install, next_numbers, protect, raise, remove, select, set_mode};
use crate::tests::known_frames::END_STATION_PLAIN;
use crate::tests::number_of;
use macs_config::SciMode;
use macs_frame::FrameBuf;
use macs_txsc::{Tx, TxFault};
use std::process::Abort;

/// A plain frame. Beyond its addresses it is zeros, where nothing else is said.
#[derive(Clone, Copy)]
pub(super) enum Plain {
    /// The one of the end station.
    Published,
    /// So many octets from the end station's address.
    Own(usize),
    /// So many octets from the address of zeros.
    Foreign(usize),
    /// 14 octets from an address that differs from the end station's in the octet at this place.
    Differs(usize),
}

/// A step of a story. Associations are named by their numbers.
#[derive(Clone, Copy)]
pub(super) enum Step {
    /// A new association under the end station's key, by its next number and its ceiling.
    Install(u8, u64, u64),
    Select(u8),
    Remove(u8),
    Raise(u8, u32),
    Mode(SciMode),
    /// A plain frame has this answer.
    Sends(Plain, Result<u32, TxFault>),
    /// The four associations have these next numbers.
    Next(Option<u64>, Option<u64>, Option<u64>, Option<u64>),
    /// With blocks of this size, this association needs a higher ceiling.
    Needs(u32, Option<u8>),
    /// So many frames were protected.
    Protected(u64),
    /// So many frames met this fault.
    Faults(TxFault, u64),
}

/// Takes the steps one after another.
pub(super) fn play(rt: &impl Abort, tx: &mut Tx, steps: &[Step]) {
    for &step in steps {
        take(rt, tx, step);
    }
}

/// Takes one step.
pub(super) fn take(rt: &impl Abort, tx: &mut Tx, step: Step) {
    match step {
        Step::Install(an, next, ceiling) => {
            install(rt, tx, number_of(rt, an), &HIDDEN, next, ceiling)
        }
        Step::Select(an) => select(rt, tx, number_of(rt, an)),
        Step::Remove(an) => remove(rt, tx, number_of(rt, an)),
        Step::Raise(an, ceiling) => raise(rt, tx, number_of(rt, an), ceiling),
        Step::Mode(mode) => set_mode(rt, tx, mode),
        Step::Sends(plain, answer) => expect_answer(rt, tx, plain, answer),
        Step::Next(a, b, c, d) => assert_eq!(rt; next_numbers(rt, tx), [a, b, c, d]),
        Step::Needs(block, need) => expect_need(rt, tx, block, need),
        Step::Protected(count) => assert_eq!(rt; tx.protected_count(), count),
        Step::Faults(fault, count) => assert_eq!(rt; tx.fault_count(fault), count, "{fault:?}"),
    }
}

fn expect_answer(rt: &impl Abort, tx: &mut Tx, plain: Plain, answer: Result<u32, TxFault>) {
    let frame = plain_frame(rt, plain);
    let mut out = FrameBuf::new();
    assert_eq!(rt; protect(rt, tx, frame.as_slice(), &mut out), answer);
}

fn expect_need(rt: &impl Abort, tx: &Tx, block: u32, need: Option<u8>) {
    let needed = tx.needs(block).map(|an| an.get());
    assert_eq!(rt; needed, need, "block of {block}");
}

pub(super) fn plain_frame(rt: &impl Abort, plain: Plain) -> FrameBuf {
    match plain {
        Plain::Published => filled(rt, END_STATION_PLAIN, END_STATION_PLAIN.len()),
        Plain::Own(octets) => filled(rt, &END_STATION_PLAIN[..12], octets),
        Plain::Foreign(octets) => filled(rt, &[0; 12], octets),
        Plain::Differs(place) => {
            let mut frame = filled(rt, &END_STATION_PLAIN[..12], 14);
            assert!(rt; place < frame.len());
            frame[place] ^= 3;
            frame
        }
    }
}

/// So many octets: these, and then zeros.
fn filled(rt: &impl Abort, octets: &[u8], length: usize) -> FrameBuf {
    let mut frame = FrameBuf::new();
    frame.try_extend_from_slice(octets).expect(rt, "room");
    for _ in octets.len()..length {
        frame.try_push(0).expect(rt, "room");
    }
    frame
}
