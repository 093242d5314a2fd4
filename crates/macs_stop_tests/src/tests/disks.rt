//! Disks in memory.

use super::SECTORS;
use super::tearing::Pending;
use macs_disk::{MemDisk, SectorDisk};
use macs_record::SECTOR;
use std::alloc::Global;
use std::process::Abort;

/// A sector that no endpoint has written.
const UNWRITTEN: [u8; SECTOR] = [0x55; SECTOR];

fn zeros(rt: &impl Abort, alloc: Global) -> MemDisk {
    match MemDisk::new(alloc, SECTORS) {
        Ok(disk) => disk,
        Err(_) => panic!(rt; "no disk"),
    }
}

/// A disk of octets 55: what is durable differs from zeros, and half of a write from the whole.
pub(super) fn blank(rt: &impl Abort, alloc: Global) -> MemDisk {
    let mut disk = zeros(rt, alloc);
    for at in 0..SECTORS {
        put(rt, &mut disk, at, &UNWRITTEN);
    }
    assert!(rt; disk.sync().is_ok());
    disk.crash();
    disk
}

/// The octets that are durable in a sector.
pub(super) fn durable(rt: &impl Abort, disk: &MemDisk, at: u64) -> [u8; SECTOR] {
    let mut octets = [0xaa; SECTOR];
    assert!(rt; at < disk.sectors());
    disk.durable(at, &mut octets);
    octets
}

/// The octets that were last written to a sector.
pub(super) fn last(rt: &impl Abort, disk: &mut MemDisk, at: u64) -> [u8; SECTOR] {
    let mut octets = [0xaa; SECTOR];
    assert!(rt; at < disk.sectors());
    assert!(rt; disk.read(at, &mut octets).is_ok());
    octets
}

fn put(rt: &impl Abort, disk: &mut MemDisk, at: u64, octets: &[u8; SECTOR]) {
    assert!(rt; at < disk.sectors());
    assert!(rt; disk.write(at, octets).is_ok());
}

/// A disk that is durable and pending as this one is.
pub(super) fn copy(
    rt: &impl Abort,
    alloc: Global,
    disk: &mut MemDisk,
    pending: &Pending,
) -> MemDisk {
    let mut copy = blank(rt, alloc);
    for at in 0..SECTORS {
        let octets = durable(rt, disk, at);
        if octets != UNWRITTEN {
            put(rt, &mut copy, at, &octets);
        }
    }
    assert!(rt; copy.sync().is_ok());
    for place in 0..pending.len() {
        let octets = last(rt, disk, pending[place]);
        put(rt, &mut copy, pending[place], &octets);
    }
    copy
}
