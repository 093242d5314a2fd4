//! What is found after a power loss, judged by what was known before.

use super::cutting::{Cut, format_again, opened, opening};
use super::disks::copy;
use super::known::{Known, Passed};
use super::life::{protect, receive};
use super::tearing::{Pending, pending};
use macs_disk::{Fuse, MemDisk, SectorDisk};
use macs_endpoint::Endpoint;
use macs_journal::JournalFault;
use std::alloc::Global;
use std::process::Abort;

/// How many plain frames go out after an opening.
const SENT_AGAIN: u32 = 2;

/// More device calls than any opening takes.
const MOST_CALLS: u64 = 600;

/// What an opening finds is what was known, and goes on above it. Where a format was cut short, the
/// disk may be none of an endpoint yet.
pub(super) fn judge<D: SectorDisk + Drop>(rt: &impl Abort, disk: D, known: &Known) {
    match Endpoint::open(disk) {
        Ok(mut endpoint) => {
            assert!(rt; known.allows(endpoint.config()));
            assert!(rt; known.passed.is_behind(rt, &endpoint));
            go_on(rt, &mut endpoint, known.passed);
        }
        Err(refused) => {
            assert!(rt; refused.fault == JournalFault::NotFormatted);
            assert!(rt; !known.is_formatted);
        }
    }
}

/// Plain frames go out under packet numbers above all before, and no frame that was delivered is
/// delivered as Ok again.
fn go_on<D: SectorDisk>(rt: &impl Abort, endpoint: &mut Endpoint<D>, passed: Passed) {
    let mut passed = passed;
    assert!(rt; endpoint.refill().is_ok());
    if endpoint.config().encoding().is_some() {
        for _ in 0..SENT_AGAIN {
            let number = protect(endpoint).expect(rt, "a packet number");
            passed.send(rt, endpoint.config(), number);
        }
    }
    for number in 1..passed.delivered.saturating_add(1) {
        assert!(rt; !receive(rt, endpoint, number));
    }
}

/// The opening of a disk behind which so many device calls pass: the disk, and whether it was
/// opened.
fn open_behind(rt: &impl Abort, disk: MemDisk, calls: u64) -> (MemDisk, bool) {
    open_fused(rt, Fuse::new(disk, calls))
}

/// The opening of a disk behind a fuse: the disk, and whether it was opened.
pub(super) fn open_fused(rt: &impl Abort, disk: Fuse<MemDisk>) -> (MemDisk, bool) {
    match opening(rt, disk) {
        Ok(endpoint) => (endpoint.into_disk().into_inner(), true),
        Err(disk) => (disk.into_inner(), false),
    }
}

/// An opening that is not stopped: what it finds is what was known.
fn open_whole(rt: &impl Abort, disk: MemDisk, known: &Known) -> MemDisk {
    let endpoint = opened(rt, disk);
    assert!(rt; known.allows(endpoint.config()));
    assert!(rt; known.passed.is_behind(rt, &endpoint));
    endpoint.into_disk()
}

/// The opening is stopped at each of its device calls, twice in a row, and is whole then. How many
/// stops that were.
pub(super) fn judge_stopped_openings(rt: &impl Abort, disk: MemDisk, known: &Known) -> u64 {
    let mut disk = disk;
    for calls in 0..MOST_CALLS {
        let (left, is_open) = open_behind(rt, disk, calls);
        if is_open {
            judge(rt, left, known);
            return 2 * calls;
        }
        let (left, is_open) = open_behind(rt, left, calls);
        assert!(rt; !is_open);
        disk = open_whole(rt, left, known);
    }
    panic!(rt; "an opening without an end")
}

/// The same, each time over a copy of the disk, since an opening that is whole may start the
/// journal over. Where the call that stops is the last sync of that, the new journal is found
/// already, and the second opening is whole.
pub(super) fn judge_stopped_migrations(
    rt: &impl Abort,
    alloc: Global,
    disk: MemDisk,
    known: &Known,
) -> u64 {
    let mut disk = disk;
    let mut stops = 0_u64;
    for calls in 0..MOST_CALLS {
        let tried = copy(rt, alloc, &mut disk, &Pending::new());
        let (left, is_open) = open_behind(rt, tried, calls);
        if is_open {
            judge(rt, left, known);
            return stops;
        }
        let (left, is_open) = open_behind(rt, left, calls);
        stops = stops.saturating_add(if is_open { 1 } else { 2 });
        judge(rt, open_whole(rt, left, known), known);
    }
    panic!(rt; "an opening without an end")
}

/// The disk is opened as it is, which leaves nothing pending. Then the power goes.
pub(super) fn judge_opened(rt: &impl Abort, cut: Cut) {
    let Cut { disk, known } = cut;
    let mut disk = open_whole(rt, disk, &known);
    assert!(rt; pending(rt, &disk).is_empty());
    disk.crash();
    judge(rt, disk, &known);
}

/// The power goes after a rest. The disk is opened twice, and each time exactly the next packet
/// numbers are found: an opening reserves none.
pub(super) fn judge_rested(rt: &impl Abort, cut: Cut) {
    let Cut { mut disk, known } = cut;
    assert!(rt; pending(rt, &disk).is_empty());
    for _ in 0..2_u32 {
        disk.crash();
        let endpoint = opened(rt, disk);
        assert!(rt; known.is_before(endpoint.config()));
        assert!(rt; known.passed.is_followed(rt, &endpoint));
        disk = endpoint.into_disk();
    }
    judge(rt, disk, &known);
}

/// The disk is formatted as it is, unless the format that was cut short was done. That leaves
/// nothing pending. Then the power goes.
pub(super) fn judge_formatted(rt: &impl Abort, cut: Cut) {
    let Cut { mut disk, known } = cut;
    if let Err(fault) = format_again(rt, &mut disk) {
        assert!(rt; fault == JournalFault::AlreadyFormatted);
    }
    assert!(rt; pending(rt, &disk).is_empty());
    disk.crash();
    open_whole(rt, disk, &known);
}
