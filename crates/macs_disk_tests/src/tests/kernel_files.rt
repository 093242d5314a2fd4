//! Disks in files that behave as those of a kernel do. Each sync in turn fails once, and the next
//! program goes on. Then memory is short, and the power is lost: what was acknowledged is there,
//! and so is what reads gave.

use super::{fill, full, seen};
use macs_disk::{FileDisk, FileFault, Layout, SectorDisk};
use macs_fixtures::{
    DeviceBlock, FileCall, Left, MemFile, MemFolder, OpenMemFile, make_disk, open_disk,
};
use std::alloc::Global;
use std::cell::{RefCell, RefMut};
use std::process::Abort;

/// A disk in a file of a kernel.
type Disk<'a> = FileDisk<OpenMemFile<'a>>;

/// What a trial is made on.
#[derive(Clone, Copy)]
pub(super) struct Ground {
    layout: Layout,
    block: DeviceBlock,
    /// How many pages a file has room for.
    pages: u16,
    /// How many octets a call moves at most.
    most: usize,
}

const PACKED: Ground = Ground {
    layout: Layout::Packed,
    block: DeviceBlock::Octets512,
    pages: 129,
    most: 300,
};

pub(super) const SPACED: Ground = Ground {
    layout: Layout::Spaced,
    block: DeviceBlock::Octets4096,
    pages: 1_029,
    most: 4_096,
};

const SPACED_512: Ground = Ground {
    layout: Layout::Spaced,
    block: DeviceBlock::Octets512,
    pages: 1_029,
    most: 4_096,
};

/// The layout that a device of 4,096 octets breaks.
const UNSUITED: Ground = Ground {
    layout: Layout::Packed,
    block: DeviceBlock::Octets4096,
    pages: 129,
    most: 4_096,
};

/// What the kernel does with the file where a call failed and its program ends. The next program
/// opens the disk again.
#[derive(Clone, Copy)]
enum Going {
    /// Some other program has the file open, and its pages stay.
    IsHeld,
    /// The pages that are clean are dropped.
    IsDropped,
}

/// A trial: which sync fails, how many blocks that it was to write reach the device, what becomes
/// of the pages where the program ends, and what the power loss leaves.
#[derive(Clone, Copy)]
struct Trial {
    failing: u64,
    reached: usize,
    going: Going,
    left: Left,
}

/// How many sectors are written and looked at: those of one page where the layout is packed.
const SECTORS: usize = 8;

/// The sectors that are written and synced, one after the other, with an octet each.
const WRITES: [(usize, u8); 5] = [(2, 1), (3, 2), (2, 3), (7, 4), (3, 5)];

/// What is written then, and not synced.
const LAST: (usize, u8) = (0, 6);

/// The syncs of a trial: one of the copy that an opening makes, and one after each write.
const SYNCS: u64 = 1 + 5;

/// The syncs of a new disk: one, after its mark and its sectors.
const BLANK_SYNCS: u64 = 1;

/// What is known of the sectors: the octet that each is full of.
type Known = [u8; SECTORS];

pub(super) fn folder(rt: &impl Abort, alloc: Global, ground: Ground) -> MemFolder {
    match MemFolder::new(alloc, ground.pages, ground.block, ground.most) {
        Ok(folder) => folder,
        Err(_) => panic!(rt; "no memory"),
    }
}

/// A file, as the kernel has it.
fn borrowed<'a>(rt: &impl Abort, file: &'a RefCell<MemFile>) -> RefMut<'a, MemFile> {
    match file.try_borrow_mut() {
        Ok(file) => file,
        Err(_) => panic!(rt; "the file is in use"),
    }
}

/// The file that has the name.
pub(super) fn named<'a>(rt: &impl Abort, folder: &'a MemFolder) -> RefMut<'a, MemFile> {
    borrowed(rt, folder.named())
}

/// The file beside it.
fn beside<'a>(rt: &impl Abort, folder: &'a MemFolder) -> RefMut<'a, MemFile> {
    borrowed(rt, folder.beside())
}

/// Has a sync fail of the file that takes the name next.
fn fail_sync(rt: &impl Abort, folder: &MemFolder, failing: u64, reached: usize) {
    beside(rt, folder).fail(FileCall::Sync, failing);
    beside(rt, folder).reach(reached);
}

/// Whether the sync that was to fail has not come yet.
fn is_due(rt: &impl Abort, folder: &MemFolder) -> bool {
    named(rt, folder).is_due() || beside(rt, folder).is_due()
}

fn is_made(folder: &MemFolder, layout: Layout) -> bool {
    make_disk(folder, layout).is_ok()
}

/// The folder of a new disk of zeros. Where this sync fails while it is made, it is made once more.
fn blank(rt: &impl Abort, alloc: Global, ground: Ground, failing: u64) -> MemFolder {
    let folder = folder(rt, alloc, ground);
    fail_sync(rt, &folder, failing, 0);
    assert!(rt; is_made(&folder, ground.layout) || is_made(&folder, ground.layout));
    assert!(rt; !is_due(rt, &folder));
    named(rt, &folder).close();
    folder
}

/// The disk in the folder. Where a sync of its opening fails it is opened once more.
fn open<'a>(rt: &impl Abort, folder: &'a MemFolder) -> Disk<'a> {
    match open_disk(folder, 0) {
        Ok(disk) => disk,
        Err(fault) => {
            assert!(rt; fault == FileFault::Device);
            named(rt, folder).close();
            open_again(rt, folder)
        }
    }
}

pub(super) fn open_again<'a>(rt: &impl Abort, folder: &'a MemFolder) -> Disk<'a> {
    match open_disk(folder, 0) {
        Ok(disk) => disk,
        Err(_) => panic!(rt; "not opened"),
    }
}

/// The program ends, and the next one opens the disk.
fn go_on<'a>(rt: &impl Abort, folder: &'a MemFolder, going: Going) -> Disk<'a> {
    named(rt, folder).close();
    if matches!(going, Going::IsDropped) {
        named(rt, folder).press();
    }
    open_again(rt, folder)
}

/// The octet that a sector is full of, of a disk that does not fail.
fn octet<D: SectorDisk>(rt: &impl Abort, disk: &mut D, at: usize) -> u8 {
    seen(rt, disk, at as u64).expect(rt, "a sector")
}

/// Writes a sector and syncs it. Whether that was done.
fn is_kept<D: SectorDisk>(rt: &impl Abort, disk: &mut D, at: u64, octet: u8) -> bool {
    fill(rt, disk, at, octet).is_ok() && disk.sync().is_ok()
}

/// Takes a sector as it is found: as before or as written.
fn learn<D: SectorDisk>(rt: &impl Abort, disk: &mut D, known: &mut Known, write: (usize, u8)) {
    let (at, written) = write;
    let found = octet(rt, disk, at);
    assert!(rt; at < known.len());
    assert!(rt; found == known[at] || found == written);
    known[at] = found;
}

/// Writes a sector and syncs it. Where that fails, the next program goes on with what it finds.
fn keep<'a>(
    rt: &impl Abort,
    folder: &'a MemFolder,
    mut disk: Disk<'a>,
    known: &mut Known,
    write: (usize, u8),
    going: Going,
) -> Disk<'a> {
    let (at, written) = write;
    if is_kept(rt, &mut disk, at as u64, written) {
        assert!(rt; at < known.len());
        known[at] = written;
        return disk;
    }
    let mut disk = go_on(rt, folder, going);
    learn(rt, &mut disk, known, write);
    disk
}

/// The sectors but the first, as reads give them.
fn found<D: SectorDisk>(rt: &impl Abort, disk: &mut D) -> Known {
    let mut found = [0; SECTORS];
    for at in 1..found.len() {
        found[at] = octet(rt, disk, at);
    }
    found
}

/// Whether a sector is full of an octet.
fn is_full<D: SectorDisk>(rt: &impl Abort, disk: &mut D, at: u64, octet: u8) -> bool {
    let mut sector = [0; 512];
    assert!(rt; at < disk.sectors());
    assert!(rt; disk.read(at, &mut sector).is_ok());
    sector == full(octet)
}

/// Whether the sectors but the first are as they are known.
fn has<D: SectorDisk>(rt: &impl Abort, disk: &mut D, known: &Known) -> bool {
    for at in 1..known.len() {
        if !is_full(rt, disk, at as u64, known[at]) {
            return false;
        }
    }
    true
}

/// Opens the disk and makes the writes. What is known then.
fn keep_all<'a>(rt: &impl Abort, folder: &'a MemFolder, going: Going) -> (Disk<'a>, Known) {
    let mut disk = open(rt, folder);
    let mut known = found(rt, &mut disk);
    for write in WRITES {
        disk = keep(rt, folder, disk, &mut known, write, going);
    }
    (disk, known)
}

fn write_last<D: SectorDisk>(rt: &impl Abort, disk: &mut D) {
    let (at, last) = LAST;
    assert!(rt; fill(rt, disk, at as u64, last).is_ok());
}

/// Makes a trial: whether all that was acknowledged is there.
fn holds(rt: &impl Abort, folder: &MemFolder, trial: Trial) -> bool {
    fail_sync(rt, folder, trial.failing, trial.reached);
    let (mut disk, known) = keep_all(rt, folder, trial.going);
    assert!(rt; !is_due(rt, folder));
    write_last(rt, &mut disk);
    named(rt, folder).press();
    assert!(rt; has(rt, &mut disk, &known));
    named(rt, folder).crash(trial.left);
    has(rt, &mut open_again(rt, folder), &known)
}

const LEFT: [Left; 4] = [Left::Durable, Left::Written, Left::Half, Left::Zeros];

/// How many blocks of a failed sync reach the device: none, one, or all.
const REACHED: [usize; 3] = [0, 1, usize::MAX];

/// Each sync fails in turn, and the next program goes on in this way.
fn fail_each(rt: &impl Abort, folder: &MemFolder, going: Going, left: Left) {
    for failing in 1..=SYNCS {
        for reached in REACHED {
            let trial = Trial {
                failing,
                reached,
                going,
                left,
            };
            assert!(rt;
                holds(rt, folder, trial),
                "sync {failing}, {reached} blocks"
            );
        }
    }
}

#[test]
fn a_failed_sync_loses_nothing_of_a_packed_disk(rt: HostRuntime) {
    for failing in 1..=BLANK_SYNCS {
        let folder = blank(&rt, rt.alloc(), PACKED, failing);
        for left in LEFT {
            fail_each(&rt, &folder, Going::IsHeld, left);
            fail_each(&rt, &folder, Going::IsDropped, left);
        }
    }
}

#[test]
fn a_failed_sync_loses_nothing_of_a_spaced_disk(rt: HostRuntime) {
    let folder = blank(&rt, rt.alloc(), SPACED, 1);
    fail_each(&rt, &folder, Going::IsHeld, Left::Zeros);
    fail_each(&rt, &folder, Going::IsDropped, Left::Half);
}

#[test]
fn small_blocks_lose_nothing_of_a_spaced_disk(rt: HostRuntime) {
    let folder = blank(&rt, rt.alloc(), SPACED_512, 1);
    fail_each(&rt, &folder, Going::IsDropped, Left::Half);
}

/// No sync fails, and the last write spoils the sectors beside it: what a spaced disk prevents.
#[test]
fn large_blocks_break_a_packed_disk(rt: HostRuntime) {
    let trial = Trial {
        failing: 0,
        reached: 0,
        going: Going::IsDropped,
        left: Left::Zeros,
    };
    assert!(rt; holds(&rt, &blank(&rt, rt.alloc(), PACKED, 0), trial));
    assert!(rt; holds(&rt, &blank(&rt, rt.alloc(), SPACED, 0), trial));
    assert!(rt; !holds(&rt, &blank(&rt, rt.alloc(), UNSUITED, 0), trial));
}
