//! How many sectors and calls a disk in memory has room for, and calls that are refused for want of
//! memory.

use super::Call::{Fill, Read, Sync};
use super::Step::{Find, Make};
use super::{Call, Found, begin, blank, found, make, play, take};
use linked_list_allocator::LocalHeap;
use macs_disk::{MemDisk, MemFault};
use std::alloc::{Allocator, Global};
use std::process::Abort;
use std::test::Fail;

#[test]
fn has_1_to_65536_sectors(rt: HostRuntime) {
    for (sectors, last) in [(1, 0), (65_536, 65_535)] {
        begin(&rt, rt.alloc(), sectors, &[Find(last, (0, 0, false))]);
    }
}

#[test]
fn other_sizes_are_refused(rt: HostRuntime) {
    for sectors in [0, 65_537, u64::MAX] {
        assert!(rt; MemDisk::new(rt.alloc(), sectors).err() == Some(MemFault::Size));
    }
}

/// In ample memory no call is refused, however many the record has.
#[test]
fn two_thousand_calls_are_done(rt: HostRuntime) {
    let mut disk = blank(&rt, rt.alloc(), 8);
    for round in 0..1_000_u16 {
        let at = u64::from(round % 8);
        let octet = (round % 251) as u8;
        let story = [
            Make(Fill(at, octet)),
            Make(Sync),
            Find(at, (octet, octet, false)),
        ];
        play(&rt, &mut disk, &story);
    }
}

/// Eight rounds of a write and a sync, the sync last or first.
const ROUNDS: &[&[Call]] = &[
    &[
        Fill(0, 1),
        Sync,
        Fill(0, 2),
        Sync,
        Fill(0, 3),
        Sync,
        Fill(0, 4),
        Sync,
        Fill(0, 5),
        Sync,
        Fill(0, 6),
        Sync,
        Fill(0, 7),
        Sync,
        Fill(0, 8),
        Sync,
    ],
    &[
        Sync,
        Fill(0, 1),
        Sync,
        Fill(0, 2),
        Sync,
        Fill(0, 3),
        Sync,
        Fill(0, 4),
        Sync,
        Fill(0, 5),
        Sync,
        Fill(0, 6),
        Sync,
        Fill(0, 7),
        Sync,
        Fill(0, 8),
    ],
];

/// What was ever refused for want of memory, and whether nothing was in one disk's life.
#[derive(Drop)]
struct Ever {
    disk: bool,
    write: bool,
    sync: bool,
    nothing: bool,
}

impl Ever {
    fn note(&mut self, call: Call, is_refused: bool) {
        match call {
            Sync => self.sync |= is_refused,
            Fill(..) | Read(..) => self.write |= is_refused,
        }
    }
}

/// What is found of sector 0 after a call. One that is refused leaves the disk as it was.
fn after(before: Found, call: Call, is_refused: bool) -> Found {
    let (read, kept, is_pending) = before;
    match call {
        Fill(_, octet) if !is_refused => (octet, kept, true),
        Sync if !is_refused => (read, read, false),
        _ => (read, kept, is_pending),
    }
}

/// Makes a call, and says whether it was refused.
fn attempt<A: Allocator>(
    rt: &impl Abort,
    disk: &mut MemDisk<A>,
    call: Call,
    ever: &mut Ever,
) -> bool {
    let before = found(rt, disk, 0);
    let is_refused = make(rt, disk, call).is_err();
    ever.note(call, is_refused);
    take(rt, disk, Find(0, after(before, call, is_refused)));
    is_refused
}

/// Makes calls, and says whether one of them was refused.
fn attempt_all<A: Allocator>(
    rt: &impl Abort,
    disk: &mut MemDisk<A>,
    calls: &[Call],
    ever: &mut Ever,
) -> bool {
    let mut is_any_refused = false;
    for call in calls {
        is_any_refused |= attempt(rt, disk, *call, ever);
    }
    is_any_refused
}

/// Makes calls of a disk, if there is memory for it.
fn attempt_on<A: Allocator>(
    rt: &impl Abort,
    disk: Result<MemDisk<A>, MemFault>,
    calls: &[Call],
    ever: &mut Ever,
) {
    match disk {
        Ok(mut disk) => ever.nothing |= !attempt_all(rt, &mut disk, calls, ever),
        Err(fault) => {
            assert!(rt; fault == MemFault::Memory);
            ever.disk = true;
        }
    }
}

/// Makes calls of a disk in a heap of so many octets.
fn attempt_in(
    rt: &impl Abort,
    alloc: Global,
    octets: usize,
    calls: &[Call],
    ever: &mut Ever,
) -> Result<(), Fail> {
    let heap = LocalHeap::new(alloc, octets)?;
    attempt_on(rt, MemDisk::new(&heap, 2), calls, ever);
    Ok(())
}

/// In heaps of growing size each growth is refused in turn, and nothing in the largest ones.
#[test]
fn refused_memory_changes_nothing(rt: HostRuntime) -> Result<(), Fail> {
    let mut ever = Ever {
        disk: false,
        write: false,
        sync: false,
        nothing: false,
    };
    for blocks in 1..200 {
        for calls in ROUNDS {
            attempt_in(&rt, rt.alloc(), 256 * blocks, calls, &mut ever)?;
        }
    }
    assert!(rt; ever.disk && ever.write && ever.sync && ever.nothing);
    Ok(())
}
