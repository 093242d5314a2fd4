//! Memory that is refused.

use super::{BIG, FRAME, STAMP, begin, gives, source_of, take, with_octets};
use linked_list_allocator::LocalHeap;
use macs_pcap::{PcapFault, PcapReader, Source};
use std::alloc::{Allocator, Global};
use std::process::Abort;
use std::test::Fail;

/// The worked capture with a frame of 600 octets.
fn capture(rt: &impl Abort, alloc: Global) -> Result<Vec<u8>, Fail> {
    let kept = with_octets(rt, BIG, 32, [0, 0, 2, 88]);
    let whole = with_octets(rt, kept, 36, [0, 0, 2, 88]);
    let mut octets = Vec::new(alloc);
    octets.extend_from_slice(&whole)?;
    octets.extend_from_slice(&[b'd'; 597])?;
    Ok(octets)
}

/// Reads the record of the capture. Whether it was refused; then it is so for good.
fn is_refused<R: Source, A: Allocator>(
    rt: &impl Abort,
    reader: &mut PcapReader<R>,
    frame: &mut Vec<u8, A>,
) -> bool {
    let answer = take(reader, frame);
    if gives(answer, Some(STAMP)) {
        assert!(rt; frame.len() == 600 && frame.as_slice().starts_with(&FRAME));
        return false;
    }
    assert!(rt; answer == Err(PcapFault::Memory) && frame.is_empty());
    assert!(rt; take(reader, frame) == answer && frame.is_empty());
    true
}

/// Reads the record of a capture into a heap of so many octets. Whether it was refused there.
fn is_refused_in(
    rt: &impl Abort,
    alloc: Global,
    capture: &[u8],
    octets: usize,
) -> Result<bool, Fail> {
    let heap = LocalHeap::new(alloc, octets)?;
    let mut frame = Vec::new(&heap);
    let mut reader = begin(source_of(capture, 0)).ok().expect(rt, "header");
    Ok(is_refused(rt, &mut reader, &mut frame))
}

/// A frame that finds no memory is refused, and in ample memory none is.
#[test]
fn memory_is_refused(rt: HostRuntime) -> Result<(), Fail> {
    let octets = capture(&rt, rt.alloc())?;
    let mut refused = 0_u32;
    for blocks in 1..40 {
        if is_refused_in(&rt, rt.alloc(), &octets, 64 * blocks)? {
            refused = refused.wrapping_add(1);
        }
    }
    assert!(rt; 0 < refused && refused < 39);
    Ok(())
}
