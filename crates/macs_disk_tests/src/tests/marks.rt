//! The mark of a spaced file: which files have it.

use super::kernel_files::{SPACED, folder, named};
use super::{full, sectors};
use macs_disk::{DiskFile, SectorDisk};
use macs_fixtures::{MemFolder, open_disk};
use std::process::Abort;

/// The octet at which the mark of a spaced file is.
const MARK_PLACE: u64 = 4_210_688;

/// How many sectors a packed file has that ends after that of the mark.
const OVER_THE_MARK: u64 = 8_225;

/// A sector that begins with the mark, full of an octet after it.
fn marked() -> [u8; 512] {
    let mut sector = full(7);
    sector[..8].copy_from_slice(b"MSEC4096");
    sector
}

/// Writes a sector from this octet of the file on.
fn write(rt: &impl Abort, folder: &MemFolder, at: u64, sector: &[u8; 512]) {
    assert!(rt; named(rt, folder).write_at(at, sector).ok() == Some(512));
}

/// Whether the file begins with a sector that is full of an octet.
fn begins_with(rt: &impl Abort, folder: &MemFolder, octet: u8) -> bool {
    let mut sector = [0; 512];
    assert!(rt; named(rt, folder).read_at(0, &mut sector).ok() == Some(512));
    sector == full(octet)
}

/// A disk in the file, of no fewer sectors than `least`, has so many.
fn expect(rt: &impl Abort, folder: &MemFolder, least: u64, wanted: u64) {
    assert!(rt; sectors(open_disk(folder, least)) == Ok(wanted));
}

#[test]
fn a_file_that_ends_with_the_mark_is_spaced(rt: HostRuntime) {
    let folder = folder(&rt, rt.alloc(), SPACED);
    write(&rt, &folder, MARK_PLACE, &marked());
    expect(&rt, &folder, 0, 1_028);
    expect(&rt, &folder, 1_028, 1_028);
}

#[test]
fn a_packed_file_that_is_lengthened_is_packed(rt: HostRuntime) {
    let folder = folder(&rt, rt.alloc(), SPACED);
    write(&rt, &folder, 0, &full(1));
    expect(&rt, &folder, OVER_THE_MARK, OVER_THE_MARK);
    expect(&rt, &folder, 0, OVER_THE_MARK);
    assert!(rt; begins_with(&rt, &folder, 1));
}
