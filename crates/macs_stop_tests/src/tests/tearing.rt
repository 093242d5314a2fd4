//! What a power loss leaves in the sectors that are pending.

use super::SECTORS;
use super::disks::{durable, last};
use arrayvec::ArrayVec;
use macs_disk::{MemDisk, SectorDisk};
use macs_record::{SECTOR, open_gate};
use std::process::Abort;

/// The most sectors that are pending at once: the gates of an area.
const MOST_PENDING: usize = 257;

/// The sectors that are pending.
pub(super) type Pending = ArrayVec<u64, MOST_PENDING>;

/// How many contents a pending sector may be left with.
const CONTENTS: u64 = 6;

/// What is left in a pending sector.
#[derive(Clone, Copy)]
enum Left {
    /// The octets that are durable there.
    Durable,
    /// The last write.
    Last,
    /// This octet throughout.
    Full(u8),
    /// An open gate: its mark and zeros.
    Open,
    /// The first half of the last write, and durable octets after it.
    Half,
}

const LEFT: [Left; 6] = [
    Left::Durable,
    Left::Last,
    Left::Full(0),
    Left::Full(0xff),
    Left::Open,
    Left::Half,
];

/// The sectors that are pending on a disk.
pub(super) fn pending(rt: &impl Abort, disk: &MemDisk) -> Pending {
    let mut pending = Pending::new();
    for at in 0..SECTORS {
        assert!(rt; at < disk.sectors());
        if disk.is_pending(at) {
            assert!(rt; pending.len() < MOST_PENDING);
            pending.push(at);
        }
    }
    pending
}

/// How many ways there are to leave so many pending sectors: one where there is none; each pair of
/// contents where there are two; else the same content in each.
pub(super) fn ways(pending: usize) -> u64 {
    match pending {
        0 => 1,
        2 => CONTENTS * CONTENTS,
        _ => CONTENTS,
    }
}

/// Chooses what a power loss leaves in each pending sector, in one of the ways.
pub(super) fn tear(rt: &impl Abort, disk: &mut MemDisk, pending: &Pending, way: u64) {
    for place in 0..pending.len() {
        let content = if pending.len() == 2 && place == 0 {
            way / CONTENTS
        } else {
            way % CONTENTS
        };
        leave(rt, disk, pending[place], content);
    }
}

/// Chooses one of the contents for a pending sector.
fn leave(rt: &impl Abort, disk: &mut MemDisk, at: u64, content: u64) {
    assert!(rt; content < CONTENTS);
    let octets = octets_of(rt, disk, at, LEFT[content as usize]);
    assert!(rt; at < disk.sectors());
    assert!(rt; disk.tear(at, &octets));
}

fn octets_of(rt: &impl Abort, disk: &mut MemDisk, at: u64, left: Left) -> [u8; SECTOR] {
    match left {
        Left::Durable => durable(rt, disk, at),
        Left::Last => last(rt, disk, at),
        Left::Full(octet) => [octet; SECTOR],
        Left::Open => open_gate(),
        Left::Half => {
            let whole = last(rt, disk, at);
            let (front, _) = whole.split_at(SECTOR / 2);
            with_front(rt, durable(rt, disk, at), front)
        }
    }
}

/// A sector with another front.
fn with_front(rt: &impl Abort, mut sector: [u8; SECTOR], front: &[u8]) -> [u8; SECTOR] {
    assert!(rt; front.len() <= SECTOR);
    sector[..front.len()].copy_from_slice(front);
    sector
}
