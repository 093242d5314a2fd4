//! A disk behind a fuse: stopped after each call of a story, and with one call that fails.

use super::Call::{Fill, Read, Sync};
use super::Step::{Crash, Find, Tear};
use super::{Call, Found, blank, full, make, make_all, play, stopped, take};
use macs_disk::{Fuse, MemDisk, SectorDisk};
use std::process::Abort;

const STORY: &[Call] = &[
    Fill(0, 1),
    Sync,
    Fill(0, 2),
    Fill(1, 3),
    Sync,
    Fill(1, 4),
    Read(0, 2),
];

/// What is found of sectors 0 and 1 after so many calls of the story, and what a power loss then
/// leaves in the second one, where 9 is chosen for it.
const AFTER: [(Found, Found, u8); 9] = [
    ((0, 0, false), (0, 0, false), 0),
    ((1, 0, true), (0, 0, false), 0),
    ((1, 1, false), (0, 0, false), 0),
    ((2, 1, true), (0, 0, false), 0),
    ((2, 1, true), (3, 0, true), 9),
    ((2, 2, false), (3, 3, false), 3),
    ((2, 2, false), (4, 3, true), 9),
    ((2, 2, false), (4, 3, true), 9),
    ((2, 2, false), (4, 3, true), 9),
];

/// What is found of both sectors, and whether the second one is pending: 9 is chosen for it then.
fn stand(rt: &impl Abort, disk: &mut MemDisk, first: Found, second: Found) {
    let pending = second.2;
    play(
        rt,
        disk,
        &[Find(0, first), Find(1, second), Tear(1, 9, pending)],
    );
}

/// What a power loss leaves of them.
fn remain(rt: &impl Abort, disk: &mut MemDisk, first: u8, second: u8) {
    let story = [
        Crash,
        Find(0, (first, first, false)),
        Find(1, (second, second, false)),
    ];
    play(rt, disk, &story);
}

#[test]
fn a_fuse_stops_a_story_at_each_call(rt: HostRuntime) {
    for (calls, (first, second, left)) in AFTER.into_iter().enumerate() {
        let mut disk = stopped(&rt, blank(&rt, rt.alloc(), 2), STORY, calls);
        stand(&rt, &mut disk, first, second);
        remain(&rt, &mut disk, first.0, left);
    }
}

/// What a write that fails leaves in its sector.
const LEFT: u8 = 9;

/// Which call fails, the calls, and what is found of sectors 0 and 1 afterwards.
const BLOWN: [(usize, [Call; 3], Found, Found); 11] = [
    (
        0,
        [Fill(0, 1), Read(0, 9), Sync],
        (9, 9, false),
        (0, 0, false),
    ),
    (
        1,
        [Fill(1, 1), Fill(0, 2), Read(1, 1)],
        (9, 0, true),
        (1, 0, true),
    ),
    (
        2,
        [Fill(0, 1), Sync, Fill(0, 2)],
        (9, 1, true),
        (0, 0, false),
    ),
    (
        0,
        [Sync, Fill(0, 1), Read(0, 1)],
        (1, 0, true),
        (0, 0, false),
    ),
    (
        1,
        [Fill(0, 1), Sync, Fill(1, 2)],
        (1, 0, true),
        (2, 0, true),
    ),
    (
        2,
        [Fill(0, 1), Fill(1, 2), Sync],
        (1, 0, true),
        (2, 0, true),
    ),
    (1, [Fill(0, 1), Sync, Sync], (1, 1, false), (0, 0, false)),
    (
        0,
        [Read(0, 0), Fill(0, 1), Sync],
        (1, 1, false),
        (0, 0, false),
    ),
    (
        1,
        [Fill(0, 1), Read(0, 1), Sync],
        (1, 1, false),
        (0, 0, false),
    ),
    (
        2,
        [Fill(0, 1), Sync, Read(0, 1)],
        (1, 1, false),
        (0, 0, false),
    ),
    (
        3,
        [Fill(0, 1), Sync, Fill(0, 2)],
        (2, 1, true),
        (0, 0, false),
    ),
];

/// Makes calls of a disk behind a fuse that fails one of them, and gives the disk back.
fn blown<D: SectorDisk>(rt: &impl Abort, disk: D, calls: [Call; 3], failing: usize) -> D {
    let mut fuse = Fuse::once(disk, failing as u64, full(LEFT));
    make_all(rt, &mut fuse, &calls, failing..failing.saturating_add(1));
    fuse.into_inner()
}

#[test]
fn a_fuse_fails_one_call_of_each_kind(rt: HostRuntime) {
    for (failing, calls, first, second) in BLOWN {
        let mut disk = blown(&rt, blank(&rt, rt.alloc(), 2), calls, failing);
        play(&rt, &mut disk, &[Find(0, first), Find(1, second)]);
    }
}

/// What a write that the fuse behind the other one fails leaves in its sector.
const LEFT_BEHIND: u8 = 8;

/// After how many calls each of two fuses fails one, the calls of both and which of them are done,
/// and what is found of the sector.
const TWICE_BLOWN: [(u64, u64, [(Call, bool); 4], Found); 4] = [
    (
        2,
        1,
        [
            (Fill(0, 1), true),
            (Fill(0, 2), false),
            (Fill(0, 3), false),
            (Read(0, 9), true),
        ],
        (9, 0, true),
    ),
    (
        1,
        1,
        [
            (Fill(0, 1), true),
            (Fill(0, 2), false),
            (Read(0, 8), true),
            (Sync, true),
        ],
        (8, 8, false),
    ),
    (
        0,
        1,
        [
            (Sync, false),
            (Fill(0, 1), true),
            (Fill(0, 2), false),
            (Read(0, 8), true),
        ],
        (8, 0, true),
    ),
    (
        1,
        2,
        [
            (Fill(0, 1), true),
            (Read(0, 1), false),
            (Sync, true),
            (Sync, false),
        ],
        (1, 1, false),
    ),
];

/// Makes calls of a disk, each of which is done or not.
fn make_each<D: SectorDisk>(rt: &impl Abort, disk: &mut D, calls: [(Call, bool); 4]) {
    for (call, done) in calls {
        assert!(rt; make(rt, disk, call).is_ok() == done);
    }
}

/// Makes calls of a disk behind two fuses, and gives the disk back.
fn twice_blown<D: SectorDisk>(
    rt: &impl Abort,
    disk: D,
    front: u64,
    behind: u64,
    calls: [(Call, bool); 4],
) -> D {
    let inner = Fuse::once(disk, behind, full(LEFT_BEHIND));
    let mut fuse = Fuse::once(inner, front, full(LEFT));
    make_each(rt, &mut fuse, calls);
    fuse.into_inner().into_inner()
}

#[test]
fn two_fuses_fail_one_call_each(rt: HostRuntime) {
    for (front, behind, calls, found) in TWICE_BLOWN {
        let disk = blank(&rt, rt.alloc(), 1);
        let mut disk = twice_blown(&rt, disk, front, behind, calls);
        take(&rt, &mut disk, Find(0, found));
    }
}
