//! A disk in files that behave as those of a kernel do, and how a program comes to it.

use macs_disk::{FileDisk, Layout};
use macs_fixtures::{DeviceBlock, FileCall, MemFile, MemFolder, OpenMemFile};
use std::alloc::Global;
use std::cell::{RefCell, RefMut};
use std::process::Abort;

/// A disk in a file of a kernel.
pub(super) type Disk<'a> = FileDisk<OpenMemFile<'a>>;

/// What the disk lies on.
#[derive(Clone, Copy)]
pub(super) enum Ground {
    /// Sectors one after the other, on a device of blocks of 512 octets.
    Packed,
    /// Each sector in a block of its own, on a device of blocks of 4,096 octets.
    Spaced,
}

/// What the kernel does with the file where a call failed and its program ends. The next program
/// opens the disk again.
#[derive(Clone, Copy)]
pub(super) enum Going {
    /// Some other program has the file open, and its pages stay.
    IsHeld,
    /// The pages that are clean are dropped.
    IsDropped,
}

/// The most octets that a call of a file moves.
const MOST: usize = 4_096;

/// A new folder.
pub(super) fn folder(rt: &impl Abort, alloc: Global, ground: Ground) -> MemFolder {
    let folder = match ground {
        Ground::Packed => MemFolder::new(alloc, 129, DeviceBlock::Octets512, MOST),
        Ground::Spaced => MemFolder::new(alloc, 1_029, DeviceBlock::Octets4096, MOST),
    };
    match folder {
        Ok(folder) => folder,
        Err(_) => panic!(rt; "no memory"),
    }
}

/// A file, as the kernel has it.
fn borrowed<'a>(rt: &impl Abort, file: &'a RefCell<MemFile>) -> RefMut<'a, MemFile> {
    match file.try_borrow_mut() {
        Ok(file) => file,
        Err(_) => panic!(rt; "the file is in use"),
    }
}

/// The file that has the name.
pub(super) fn named<'a>(rt: &impl Abort, folder: &'a MemFolder) -> RefMut<'a, MemFile> {
    borrowed(rt, folder.named())
}

/// Has a sync of the file beside fail, which takes the name next, counted from 1, and some of the
/// blocks that it was to write reach the device.
pub(super) fn fail_sync(rt: &impl Abort, folder: &MemFolder, failing: u64, reached: usize) {
    let mut beside = borrowed(rt, folder.beside());
    beside.fail(FileCall::Sync, failing);
    beside.reach(reached);
}

/// Whether the sync that was to fail has not come yet.
pub(super) fn is_due(rt: &impl Abort, folder: &MemFolder) -> bool {
    named(rt, folder).is_due() || borrowed(rt, folder.beside()).is_due()
}

/// No sync fails any more.
pub(super) fn fail_none(rt: &impl Abort, folder: &MemFolder) {
    named(rt, folder).fail(FileCall::Sync, 0);
    borrowed(rt, folder.beside()).fail(FileCall::Sync, 0);
}

/// A new disk. Where a sync fails, the next program makes it.
pub(super) fn make_disk<'a>(rt: &impl Abort, folder: &'a MemFolder, ground: Ground) -> Disk<'a> {
    let layout = match ground {
        Ground::Packed => Layout::Packed,
        Ground::Spaced => Layout::Spaced,
    };
    if let Ok(disk) = macs_fixtures::make_disk(folder, layout) {
        return disk;
    }
    match macs_fixtures::make_disk(folder, layout) {
        Ok(disk) => disk,
        Err(_) => panic!(rt; "no disk"),
    }
}

/// The disk in the folder.
pub(super) fn open_disk<'a>(rt: &impl Abort, folder: &'a MemFolder) -> Disk<'a> {
    match macs_fixtures::open_disk(folder, 0) {
        Ok(disk) => disk,
        Err(_) => panic!(rt; "not opened"),
    }
}

/// The program ends, and the next one opens the disk.
pub(super) fn go_on<'a>(rt: &impl Abort, folder: &'a MemFolder, going: Going) -> Disk<'a> {
    named(rt, folder).close();
    if matches!(going, Going::IsDropped) {
        named(rt, folder).press();
    }
    open_disk(rt, folder)
}
