//! Stories of calls, choices and power losses, with what is to be found worked out by hand.

mod behaving_files;
mod failing_files;
mod files;
mod forgetful;
mod fuses;
mod kernel_files;
mod marks;
mod memory;
mod promises;
mod renewals;
mod renewed_files;
mod stories;
mod tearing;

use macs_disk::{DeviceFault, Fuse, MemDisk, SectorDisk};
use std::alloc::{Allocator, Global};
use std::fs::File;
use std::ops::Range;
use std::process::Abort;
use std::rt::Files;
use std::{fs, io};

/// A call of a disk.
#[derive(Clone, Copy)]
enum Call {
    /// Fills a sector with an octet.
    Fill(u64, u8),
    /// Reads a sector, which is full of this octet.
    Read(u64, u8),
    Sync,
}

use Call::{Fill, Read, Sync};

/// What is found of a sector: the octet that reads give, the one that is durable, and whether the
/// sector is pending.
type Found = (u8, u8, bool);

/// A step of a story of a disk in memory.
#[derive(Clone, Copy)]
enum Step {
    /// A call that is done.
    Make(Call),
    /// Chooses that a power loss fills a sector with an octet; whether that sector is pending.
    Tear(u64, u8, bool),
    Crash,
    /// What is found of a sector.
    Find(u64, Found),
}

/// A sector full of an octet.
fn full(octet: u8) -> [u8; 512] {
    let mut sector = [0; 512];
    sector.fill(octet);
    sector
}

/// The octet that a sector is full of.
fn octet_of(rt: &impl Abort, sector: &[u8; 512]) -> u8 {
    assert!(rt; *sector == full(sector[0]));
    sector[0]
}

fn fill<D: SectorDisk>(
    rt: &impl Abort,
    disk: &mut D,
    at: u64,
    octet: u8,
) -> Result<(), DeviceFault> {
    assert!(rt; at < disk.sectors());
    disk.write(at, &full(octet))
}

/// The octet that a sector is full of, as a read gives it.
fn seen<D: SectorDisk>(rt: &impl Abort, disk: &mut D, at: u64) -> Result<u8, DeviceFault> {
    assert!(rt; at < disk.sectors());
    let mut sector = [0; 512];
    disk.read(at, &mut sector)?;
    Ok(octet_of(rt, &sector))
}

/// How many sectors a disk has, or why there is none.
fn sectors<D: SectorDisk + Drop, E>(disk: Result<D, E>) -> Result<u64, E> {
    match disk {
        Ok(disk) => Ok(disk.sectors()),
        Err(fault) => Err(fault),
    }
}

/// Makes one call.
fn make<D: SectorDisk>(rt: &impl Abort, disk: &mut D, call: Call) -> Result<(), DeviceFault> {
    match call {
        Fill(at, octet) => fill(rt, disk, at, octet),
        Read(at, octet) => {
            assert!(rt; seen(rt, disk, at)? == octet);
            Ok(())
        }
        Sync => disk.sync(),
    }
}

/// Makes calls. Those at these places fail, and no others.
fn make_all<D: SectorDisk>(rt: &impl Abort, disk: &mut D, calls: &[Call], failing: Range<usize>) {
    for (i, call) in calls.iter().enumerate() {
        assert!(rt;
            make(rt, disk, *call).is_ok() != failing.contains(&i),
            "call {i}"
        );
    }
}

/// Makes calls of a disk behind a fuse that passes so many of them, and gives the disk back.
fn stopped<D: SectorDisk>(rt: &impl Abort, disk: D, calls: &[Call], done: usize) -> D {
    let sectors = disk.sectors();
    let mut fuse = Fuse::new(disk, done as u64);
    assert!(rt; fuse.sectors() == sectors);
    make_all(rt, &mut fuse, calls, done..calls.len());
    fuse.into_inner()
}

/// The octet that a sector is full of durably.
fn durable<A: Allocator>(rt: &impl Abort, disk: &MemDisk<A>, at: u64) -> u8 {
    assert!(rt; at < disk.sectors());
    let mut sector = [0; 512];
    disk.durable(at, &mut sector);
    octet_of(rt, &sector)
}

fn is_pending<A: Allocator>(rt: &impl Abort, disk: &MemDisk<A>, at: u64) -> bool {
    assert!(rt; at < disk.sectors());
    disk.is_pending(at)
}

fn found<A: Allocator>(rt: &impl Abort, disk: &mut MemDisk<A>, at: u64) -> Found {
    let read = seen(rt, disk, at).expect(rt, "a sector");
    (read, durable(rt, disk, at), is_pending(rt, disk, at))
}

/// Chooses that a power loss fills a sector with an octet.
fn tear<A: Allocator>(rt: &impl Abort, disk: &mut MemDisk<A>, at: u64, octet: u8) -> bool {
    assert!(rt; at < disk.sectors());
    disk.tear(at, &full(octet))
}

/// This is found of a sector.
fn find<A: Allocator>(rt: &impl Abort, disk: &mut MemDisk<A>, at: u64, wanted: Found) {
    assert!(rt; found(rt, disk, at) == wanted, "sector {at}");
}

/// Takes one step.
fn take<A: Allocator>(rt: &impl Abort, disk: &mut MemDisk<A>, step: Step) {
    match step {
        Step::Make(call) => assert!(rt; make(rt, disk, call).is_ok()),
        Step::Tear(at, octet, pending) => assert!(rt; tear(rt, disk, at, octet) == pending),
        Step::Crash => disk.crash(),
        Step::Find(at, wanted) => find(rt, disk, at, wanted),
    }
}

/// Takes steps, one after the other.
fn play<A: Allocator>(rt: &impl Abort, disk: &mut MemDisk<A>, story: &[Step]) {
    for step in story {
        take(rt, disk, *step);
    }
}

/// A new disk.
fn blank(rt: &impl Abort, alloc: Global, sectors: u64) -> MemDisk {
    let Ok(disk) = MemDisk::new(alloc, sectors) else {
        panic!(rt; "no disk");
    };
    assert!(rt; disk.sectors() == sectors);
    disk
}

/// Takes steps on a new disk.
fn begin(rt: &impl Abort, alloc: Global, sectors: u64, story: &[Step]) {
    let mut disk = blank(rt, alloc, sectors);
    play(rt, &mut disk, story);
}

/// This is done.
fn done(rt: &impl Abort, told: io::Result<()>) {
    assert!(rt; told.is_ok());
}

/// This is so.
fn expect(rt: &impl Abort, fact: io::Result<bool>) {
    assert!(rt; matches!(fact, Ok(true)));
}

fn is_missing(rt: &impl Files<File = File>, path: &str) -> io::Result<bool> {
    Ok(!fs::exists(rt, path)?)
}
