//! Frames that a wire does not send for want of memory.

use super::endpoints::{OWN, formatted, number_of, sending};
use super::wires::{filled, push};
use linked_list_allocator::LocalHeap;
use macs_disk::SectorDisk;
use macs_edge::{MemWire, RelaySummary, Wire, relay};
use macs_endpoint::{Endpoint, RefillFault};
use std::alloc::{Allocator, Global};
use std::process::Abort;

fn relayed<D: SectorDisk, P: Wire, C: Wire>(
    endpoint: &mut Endpoint<D>,
    controlled: &mut P,
    common: &mut C,
    turns: u64,
) -> Result<RelaySummary, RefillFault> {
    relay(endpoint, controlled, common, turns)
}

pub(super) fn counted(
    sent: u64,
    delivered: u64,
    dropped: u64,
    faults: u64,
) -> Result<RelaySummary, RefillFault> {
    Ok(RelaySummary {
        sent,
        delivered,
        dropped,
        faults,
    })
}

/// So many plain frames of 60 octets wait, each of which has its place in every octet.
pub(super) fn push_plain<A: Allocator + Copy>(
    rt: &impl Abort,
    alloc: Global,
    wire: &mut MemWire<A>,
    count: u8,
) {
    for place in 0..count {
        let frame = filled(rt, alloc, 60, place);
        assert!(rt; push(wire, &frame) == Ok(()));
    }
}

/// The packet number in the SecTAG of a frame.
pub(super) fn packet_number(frame: &[u8]) -> Option<u32> {
    let octets = frame.get(16..20)?;
    Some(u32::from_be_bytes([octets[0], octets[1], octets[2], octets[3]]))
}

/// The packet numbers of the frames that were sent rise.
fn expect_rising<A: Allocator + Copy>(rt: &impl Abort, wire: &MemWire<A>) {
    let mut last = 0;
    for frame in wire.sent() {
        let number = packet_number(frame).unwrap_or(0);
        assert!(rt; last < number);
        last = number;
    }
}

/// Six frames to a wire in this heap: how many were sent. Each of the others is lost with its
/// number, which stays used.
fn sent_in(rt: &impl Abort, alloc: Global, heap: &LocalHeap) -> u64 {
    let mut endpoint = sending(rt, formatted(rt, alloc, OWN, 4));
    let mut controlled = MemWire::new(alloc);
    let mut common = MemWire::new(heap);
    push_plain(rt, alloc, &mut controlled, 6);
    let answer = relayed(&mut endpoint, &mut controlled, &mut common, 7);
    let sent = common.sent().len() as u64;
    assert!(rt; answer == counted(sent, 0, 0, 6_u64.saturating_sub(sent)));
    assert!(rt; endpoint.next_number(number_of(rt, 0)) == Some(7));
    expect_rising(rt, &common);
    sent
}

/// Heaps from one that takes no frame to one that takes them all.
#[test]
fn a_frame_that_is_not_sent_is_lost(rt: HostRuntime) {
    let mut fewest = 6;
    let mut most = 0;
    for size in [0_usize, 200, 400, 600, 800, 1_000, 2_000, 4_000] {
        let Ok(heap) = LocalHeap::new(rt.alloc(), size) else {
            continue;
        };
        let sent = sent_in(&rt, rt.alloc(), &heap);
        fewest = fewest.min(sent);
        most = most.max(sent);
    }
    assert!(rt; fewest == 0);
    assert!(rt; most == 6);
}
