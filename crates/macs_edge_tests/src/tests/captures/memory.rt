//! Want of memory for a frame.

use super::frames::protected_capture;
use super::{PEER, WRITTEN, Way, plain_capture, run_in, sender, summary};
use crate::tests::endpoints::{OWN, command, formatted, number_of, opened};
use linked_list_allocator::LocalHeap;
use macs_aes::Key;
use macs_config::Command;
use macs_disk::MemDisk;
use macs_edge::RunFault;
use macs_endpoint::Endpoint;
use macs_pcap::PcapFault;
use std::alloc::Global;
use std::process::Abort;
use std::test::Fail;

/// Each frame longer than the one before, so that the buffer grows for each.
const SIZES: [usize; 10] = [60, 600, 1_200, 2_400, 4_800, 9_000, 0, 0, 0, 0];

/// An endpoint that receives what the sender of most tests sends.
fn receiver_of_all(rt: &impl Abort, alloc: Global) -> Endpoint<MemDisk> {
    let mut endpoint = opened(rt, formatted(rt, alloc, PEER, 4));
    let install = Command::RxInstall {
        sci: OWN,
        an: number_of(rt, 0),
        key: Key::Short([7; 16]),
        start: 1,
        offset: 0,
    };
    command(rt, &mut endpoint, Command::RxAdd { sci: OWN });
    command(rt, &mut endpoint, install);
    endpoint
}

fn endpoint_of(rt: &impl Abort, alloc: Global, way: Way) -> Endpoint<MemDisk> {
    match way {
        Way::Protect => sender(rt, alloc),
        Way::Validate => receiver_of_all(rt, alloc),
    }
}

/// The capture of these frames that is read, and the one that is written in ample memory.
fn captures_of(rt: &impl Abort, alloc: Global, way: Way) -> Result<(Vec<u8>, Vec<u8>), Fail> {
    let plain = plain_capture(alloc, SIZES)?;
    let protected = protected_capture(rt, alloc, SIZES)?;
    match way {
        Way::Protect => Ok((plain, protected)),
        Way::Validate => Ok((protected, as_written(rt, plain))),
    }
}

/// A capture whose header is as it is written.
fn as_written(rt: &impl Abort, capture: Vec<u8>) -> Vec<u8> {
    let mut capture = capture;
    assert!(rt; capture.len() >= WRITTEN.len());
    for place in 0..WRITTEN.len() {
        capture[place] = WRITTEN[place];
    }
    capture
}

/// How many whole records a front of a written capture has. Each protected frame is 32 octets
/// longer.
fn records_in(rt: &impl Abort, length: usize, way: Way) -> usize {
    let more = match way {
        Way::Protect => 16 + 32,
        Way::Validate => 16,
    };
    let mut end = WRITTEN.len();
    for place in 0..6 {
        if length == end {
            return place;
        }
        end = end.saturating_add(SIZES[place]).saturating_add(more);
    }
    assert!(rt; length == end);
    6
}

/// Heaps from 0 octets on, until one suffices: in each smaller one a run is refused memory, and
/// what it wrote is a front of the capture. Each of the six growths is refused in one of them.
fn refuse_each(rt: &impl Abort, alloc: Global, way: Way) -> Result<(), Fail> {
    let (octets, whole) = captures_of(rt, alloc, way)?;
    let mut refused = [false; 6];
    let mut is_ever_done = false;
    for size in 0..320_usize {
        let Ok(heap) = LocalHeap::new(alloc, size * 64) else {
            continue;
        };
        let mut endpoint = endpoint_of(rt, alloc, way);
        let (answer, written) = run_in(&heap, alloc, &mut endpoint, way, &octets, 0, 0);
        assert!(rt; whole.as_slice().starts_with(written.as_slice()));
        let records = records_in(rt, written.len(), way);
        if answer == summary(6, 0) {
            is_ever_done = true;
            assert!(rt; records == 6);
        } else {
            assert!(rt; answer == Err(RunFault::Pcap(PcapFault::Memory)));
            assert!(rt; !is_ever_done && records < 6);
            refused[records] = true;
        }
    }
    assert!(rt; is_ever_done && refused == [true; 6]);
    Ok(())
}

#[test]
fn memory_is_refused(rt: HostRuntime) -> Result<(), Fail> {
    refuse_each(&rt, rt.alloc(), Way::Protect)?;
    refuse_each(&rt, rt.alloc(), Way::Validate)
}
