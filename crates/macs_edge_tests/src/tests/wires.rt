//! The wire in memory.

use linked_list_allocator::LocalHeap;
use macs_edge::{Got, MemWire, Wire, WireFault};
use macs_frame::FrameBuf;
use std::alloc::{Allocator, Global};
use std::process::Abort;

/// How long each frame is, and what a receive answers of it.
pub(super) const FRAMES: [(usize, Got); 7] = [
    (60, Got::Frame),
    (0, Got::Frame),
    (9_216, Got::Frame),
    (9_217, Got::TooLong),
    (1, Got::Frame),
    (60_000, Got::TooLong),
    (60, Got::Frame),
];

/// A frame of so many octets, each of which is this one.
pub(super) fn filled(rt: &impl Abort, alloc: Global, octets: usize, octet: u8) -> Vec<u8> {
    vec![in alloc; octet; octets].expect(rt, "memory for a frame")
}

pub(super) fn is_filled(frame: &[u8], octets: usize, octet: u8) -> bool {
    frame.len() == octets && frame.iter().all(|&it| it == octet)
}

pub(super) fn receive<W: Wire>(wire: &mut W, into: &mut FrameBuf) -> Result<Got, WireFault> {
    wire.receive(into)
}

pub(super) fn send<W: Wire>(wire: &mut W, frame: &[u8]) -> Result<(), WireFault> {
    wire.send(frame)
}

pub(super) fn push<A: Allocator + Copy>(
    wire: &mut MemWire<A>,
    frame: &[u8],
) -> Result<(), WireFault> {
    wire.push(frame)
}

/// Whether the frame that was sent in this place has so many octets, each of which is this one.
fn was_sent<A: Allocator + Copy>(
    wire: &MemWire<A>,
    place: usize,
    octets: usize,
    octet: u8,
) -> bool {
    match wire.sent().get(place) {
        Some(frame) => is_filled(frame, octets, octet),
        None => false,
    }
}

/// A thousand frames that wait, each of which is sent as it is received.
#[test]
fn a_burst_is_handed_on(rt: HostRuntime) {
    let mut wire = MemWire::new(rt.alloc());
    let mut got = FrameBuf::new();
    for number in 0..1_000_u16 {
        assert!(rt; push(&mut wire, &number.to_be_bytes()) == Ok(()));
    }
    for number in 0..1_000_u16 {
        assert!(rt; receive(&mut wire, &mut got) == Ok(Got::Frame));
        assert!(rt; got.as_slice() == number.to_be_bytes().as_slice());
        assert!(rt; send(&mut wire, &got) == Ok(()));
    }
    assert!(rt; receive(&mut wire, &mut got) == Ok(Got::Nothing));
    assert!(rt; wire.sent().len() == 1_000);
    for number in 0..1_000_u16 {
        let sent = match wire.sent().get(usize::from(number)) {
            Some(frame) => frame.as_slice() == number.to_be_bytes().as_slice(),
            None => false,
        };
        assert!(rt; sent);
    }
}

/// Notes the octet of a frame that was taken. Where it was refused that is for want of memory, and
/// the answer is 1.
fn noted(rt: &impl Abort, done: Result<(), WireFault>, taken: &mut FrameBuf, octet: u8) -> u16 {
    match done {
        Ok(()) => {
            assert!(rt; taken.try_extend_from_slice(&[octet]).is_ok());
            0
        }
        Err(fault) => {
            assert!(rt; fault == WireFault::Memory);
            1
        }
    }
}

/// The wire gives the frames that were pushed, of these octets, and then no other.
fn expect_given<A: Allocator + Copy>(rt: &impl Abort, wire: &mut MemWire<A>, pushed: &[u8]) {
    let mut got = FrameBuf::new();
    for &octet in pushed {
        assert!(rt; receive(wire, &mut got) == Ok(Got::Frame));
        assert!(rt; is_filled(&got, 40, octet));
    }
    assert!(rt; receive(wire, &mut got) == Ok(Got::Nothing));
}

/// The wire has the frames that were sent, of these octets, and no other.
fn expect_sent<A: Allocator + Copy>(rt: &impl Abort, wire: &MemWire<A>, sent: &[u8]) {
    assert!(rt; wire.sent().len() == sent.len());
    for place in 0..sent.len() {
        assert!(rt; was_sent(wire, place, 50, sent[place]));
    }
}

/// Six frames pushed and six sent, by turns, on a wire in this heap: each that is not refused is
/// given, or is among those that were sent, and no other. The answer has a bit for each call that
/// was refused.
fn refused(rt: &impl Abort, heap: &LocalHeap) -> u16 {
    let mut wire = MemWire::new(heap);
    let mut pushed = FrameBuf::new();
    let mut sent = FrameBuf::new();
    let mut refused = 0_u16;
    for octet in 0..6_u8 {
        let done = push(&mut wire, &[octet; 40]);
        let bit = noted(rt, done, &mut pushed, octet);
        refused = refused.wrapping_mul(2).wrapping_add(bit);
        let done = send(&mut wire, &[octet; 50]);
        let bit = noted(rt, done, &mut sent, octet);
        refused = refused.wrapping_mul(2).wrapping_add(bit);
    }
    expect_given(rt, &mut wire, pushed.as_slice());
    expect_sent(rt, &wire, sent.as_slice());
    if !pushed.is_empty() {
        assert!(rt; push(&mut wire, &[9; 40]) == Ok(()));
        expect_given(rt, &mut wire, &[9]);
    }
    refused
}

/// Heaps from 0 octets on, in steps of 16, until one suffices: each call is refused in one of them.
#[test]
fn a_refused_call_loses_nothing(rt: HostRuntime) {
    let mut refused_once = 0_u16;
    let mut refused_last = 1_u16;
    for size in 0..200_usize {
        let Ok(heap) = LocalHeap::new(rt.alloc(), size * 16) else {
            continue;
        };
        refused_last = refused(&rt, &heap);
        refused_once |= refused_last;
    }
    assert!(rt; refused_once == 0xfff);
    assert!(rt; refused_last == 0);
}
