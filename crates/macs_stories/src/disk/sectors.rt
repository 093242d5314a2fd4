//! The sectors of a story's disk: what is put into them, what a power loss leaves there, and what
//! is found.

use crate::disk::names::sci_of;
use crate::disk::records::record_of;
use crate::text::{Answer, Words};
use macs_config::Identity;
use macs_disk::{DeviceFault, MemDisk, SectorDisk};
use macs_record::{Format, Head, SECTOR, encode, encode_head, open_gate};
use std::alloc::Global;

type Sector = [u8; SECTOR];

fn read(disk: &mut MemDisk, at: u64) -> Sector {
    let mut sector = [0; SECTOR];
    if at < disk.sectors() {
        let _read = disk.read(at, &mut sector);
    }
    sector
}

fn durable(disk: &MemDisk, at: u64) -> Sector {
    let mut sector = [0; SECTOR];
    if at < disk.sectors() {
        disk.durable(at, &mut sector);
    }
    sector
}

/// A sector with another front; as it is where that is longer.
fn with_front(mut sector: Sector, front: &[u8]) -> Sector {
    if front.len() <= SECTOR {
        sector[..front.len()].copy_from_slice(front);
    }
    sector
}

/// The first half of the last write, and what is durable after it.
fn half(disk: &mut MemDisk, at: u64) -> Sector {
    let last = read(disk, at);
    let (front, _) = last.split_at(SECTOR / 2);
    with_front(durable(disk, at), front)
}

/// `IDENTITY`: an SCI and the blocks of either side.
pub fn identity_of(words: &mut Words<'_>) -> Option<Identity> {
    let sci = sci_of(words)?;
    let tx = words.short()?;
    Identity::new(sci, tx, words.short()?)
}

/// `head GENERATION COUNT IDENTITY`, of an area of this format.
fn head_of(format: Format, words: &mut Words<'_>) -> Option<Sector> {
    let generation = words.number()?;
    let count = words.short()?;
    let identity = identity_of(words)?;
    Some(encode_head(&Head::new(format, generation, count, identity)?))
}

/// Octets in hex, and after them `zeros`, also where nothing is said, or `ones`.
fn front_of(word: &str, words: &mut Words<'_>, alloc: Global) -> Option<Sector> {
    let front = hex::decode(alloc, word).ok()?;
    let fill = match words.take() {
        "" | "zeros" => 0,
        "ones" => 0xff,
        _ => return None,
    };
    if front.len() > SECTOR {
        return None;
    }
    Some(with_front([fill; SECTOR], front.as_slice()))
}

/// What the words put into this sector.
pub fn contents_of(
    disk: &mut MemDisk,
    at: u64,
    words: &mut Words<'_>,
    alloc: Global,
) -> Option<Sector> {
    let sector = match words.take() {
        "durable" => Some(durable(disk, at)),
        "last" => Some(read(disk, at)),
        "half" => Some(half(disk, at)),
        "copy" => Some(read(disk, words.number()?)),
        "" => None,
        word => written(word, words, alloc),
    };
    if words.is_empty() { sector } else { None }
}

/// Contents that are the same on every disk.
fn written(word: &str, words: &mut Words<'_>, alloc: Global) -> Option<Sector> {
    match word {
        "zeros" => Some([0; SECTOR]),
        "ones" => Some([0xff; SECTOR]),
        "fill" => Some([words.hex_octet()?; SECTOR]),
        "gate" => Some(open_gate()),
        "head" => head_of(Format::Two, words),
        "old-head" => head_of(Format::One, words),
        "record" => Some(encode(&record_of(words)?)),
        _ => front_of(word, words, alloc),
    }
}

/// Chooses what a power loss leaves in a sector. Whether it is pending.
pub fn tear(disk: &mut MemDisk, at: u64, sector: &Sector) -> bool {
    at < disk.sectors() && disk.tear(at, sector)
}

/// Whether a sector is pending; not where it does not exist.
pub fn is_pending(disk: &MemDisk, at: u64) -> bool {
    at < disk.sectors() && disk.is_pending(at)
}

/// How many sectors are pending.
pub fn pending(disk: &MemDisk) -> u64 {
    let mut count = 0_u64;
    for at in 0..disk.sectors() {
        if is_pending(disk, at) {
            count = count.saturating_add(1);
        }
    }
    count
}

/// A power loss that leaves these contents in each pending sector; `torn` leaves what was chosen
/// for it. Whether there are such contents.
pub fn lose_power(disk: &mut MemDisk, words: Words<'_>, alloc: Global) -> bool {
    if words.rest() == "torn" {
        disk.crash();
        return true;
    }
    for at in 0..disk.sectors() {
        if is_pending(disk, at) && !choose(disk, at, words, alloc) {
            return false;
        }
    }
    disk.crash();
    true
}

/// Leaves a pending sector so. Whether there are such contents.
fn choose(disk: &mut MemDisk, at: u64, words: Words<'_>, alloc: Global) -> bool {
    let mut words = words;
    match contents_of(disk, at, &mut words, alloc) {
        Some(sector) => tear(disk, at, &sector),
        None => false,
    }
}

/// Writes a sector. `DeviceFault` where it does not exist.
pub fn write(disk: &mut MemDisk, at: u64, sector: &Sector) -> Result<(), DeviceFault> {
    if at >= disk.sectors() {
        return Err(DeviceFault);
    }
    disk.write(at, sector)
}

/// How many octets a sector has before this one alone follows.
fn front(sector: &Sector, last: u8) -> usize {
    let mut octets = 0;
    for at in 0..SECTOR {
        if sector[at] != last {
            octets = at + 1;
        }
    }
    octets
}

/// Reports the octets of a sector, but for those that are the same up to its end; these too where
/// they are no zeros.
pub fn tell_sector(disk: &mut MemDisk, at: u64, answer: &mut Answer) {
    let sector = read(disk, at);
    let last = sector[SECTOR - 1];
    let (octets, _) = sector.split_at(front(&sector, last).min(SECTOR));
    answer.octets(octets);
    if last != 0 {
        answer.word("fill");
        answer.octets(&[last]);
    }
}

/// Whether the sectors from the first number up to the second are zeros.
pub fn are_zeros(disk: &mut MemDisk, first: u64, end: u64) -> bool {
    for at in first..end {
        if read(disk, at) != [0; SECTOR] {
            return false;
        }
    }
    true
}
