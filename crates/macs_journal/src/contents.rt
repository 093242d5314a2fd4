//! What a file holds before it is overwritten.

ghost use Rattle.std.specs.Prelude.{◌≡◌, ◌↔◌, ◌<◌, ◌≤◌, ◌+◌, ◌*◌, ◌/◌, ◌^◌, IfErr, IfOk, IsTrue};
ghost use Rattle.std.specs.Prelude.{OnOk, ℕ};
ghost use Rattle.std.specs.IoError.{error_kind};
ghost use Rattle.macs_disk.specs.FileFailures.{MoveFails, Reads};
ghost use Rattle.macs_disk.specs.Files.{Behaves, HasZeros};
ghost use Rattle.macs_journal.specs.Areas.{least_sectors};
ghost use Rattle.macs_journal.specs.Contents.{ContentsAre, HasFront, HasFrontInEither, HasHeadMark};
ghost use Rattle.macs_journal.specs.Contents.{HasOpenGate, HoldsEndpoint, IsBlankFile, IsPartOf};
ghost use Rattle.macs_journal.specs.Contents.{IsUnused, leftover, sector_in};
ghost use Rattle.macs_record.specs.Heads.{Head, IsHeadOf};
ghost use Rattle.macs_record.specs.Sectors.{Begins};

use crate::area::{Area, LEAST_SECTORS};
use macs_disk::{DiskFile, read_exact_at, spaced_mark};
use macs_record::{CLOSED_GATE, Record, SECTOR, decode_head, encode, open_gate};
use std::io;

/// How many sectors of 512 octets a block of a spaced file has.
const BLOCK_SECTORS: u64 = 8;

/// The first octets of a head, and those of an open gate.
const HEAD_MARK: &[u8; 8] = b"MSECHEAD";

const OPEN_MARK: &[u8; 8] = b"MSECOPEN";

/// The sector with the mark of a spaced file, after the blocks of the disk.
const SPACED_MARK_SECTOR: u64 = BLOCK_SECTORS * LEAST_SECTORS;

/// How many sectors of a file are read before the end of its next hole is looked up again.
const HOLE_SECTORS: u64 = 128;

/// What a file holds that is to become the disk of an endpoint.
#[derive(Clone, Copy, Debug, PartialEq, Eq)]
pub enum Contents {
    /// Zeros, except for what an interrupted `format` may have left.
    Blank,
    /// An endpoint: the gate of a head is open.
    Endpoint,
    /// Anything else.
    Other,
}

/// Reads the sector with this number, counting from the start of the file.
fn read_sector<F: DiskFile>(file: &mut F, number: u64, sector: &mut [u8; SECTOR]) -> io::Result<()>
    requires { 512 * number + 512 < 2 ^ 64 }
    ensures steady { (F.file file.new).behaves ≡ (F.file file.old).behaves }
    ensures same { Behaves (F.file file.old) → F.file file.new ≡ F.file file.old }
    ensures octets { Behaves (F.file file.old)
        → OnOk result (sector.new ≡ sector_in (F.file file.old) number) }
    ensures cause { IfErr result
        (λ error. MoveFails (F.failures file.old) (F.failures file.new) Reads (error_kind error)) }
{
    read_exact_at(file, SECTOR as u64 * number, sector)
}

/// Whether a sector begins with these octets.
fn has_front(sector: &[u8; SECTOR], front: &[u8; 8]) -> bool
    ensures { IsTrue result ↔ Begins front.now sector.now }
{
    sector.starts_with(front)
}

/// Whether a file of `sectors` sectors has one with this number, and it begins with `front`.
fn begins<F: DiskFile>(file: &mut F, sectors: u64, number: u64, front: &[u8; 8]) -> io::Result<bool>
    requires { 512 * sectors < 2 ^ 64 }
    ensures steady { (F.file file.new).behaves ≡ (F.file file.old).behaves }
    ensures same { Behaves (F.file file.old) → F.file file.new ≡ F.file file.old }
    ensures found { Behaves (F.file file.old)
        → IfOk result (λ is. IsTrue is ↔ HasFront (F.file file.old) sectors number front.now) }
{
    if number >= sectors {
        return Ok(false);
    }
    let mut sector = CLOSED_GATE;
    read_sector(file, number, &mut sector)?;
    Ok(has_front(&sector, front))
}

/// Whether this sector of a disk begins with these octets, if the disk lies in the file packed or
/// spaced.
fn begins_in_either<F: DiskFile>(
    file: &mut F,
    sectors: u64,
    at: u64,
    front: &[u8; 8],
) -> io::Result<bool>
    requires fits { 512 * sectors < 2 ^ 64 }
    requires within { at < least_sectors }
    ensures steady { (F.file file.new).behaves ≡ (F.file file.old).behaves }
    ensures same { Behaves (F.file file.old) → F.file file.new ≡ F.file file.old }
    ensures found { Behaves (F.file file.old)
        → IfOk result (λ is. IsTrue is ↔ HasFrontInEither (F.file file.old) sectors at front.now) }
{
    let is_packed = begins(file, sectors, at, front)?;
    let is_spaced = begins(file, sectors, BLOCK_SECTORS * at, front)?;
    Ok(is_packed || is_spaced)
}

/// Whether the gate of a head is open.
fn has_open_gate<F: DiskFile>(file: &mut F, sectors: u64) -> io::Result<bool>
    requires { 512 * sectors < 2 ^ 64 }
    ensures steady { (F.file file.new).behaves ≡ (F.file file.old).behaves }
    ensures same { Behaves (F.file file.old) → F.file file.new ≡ F.file file.old }
    ensures found { Behaves (F.file file.old)
        → IfOk result (λ is. IsTrue is ↔ HasOpenGate (F.file file.old) sectors) }
{
    let is_first = begins_in_either(file, sectors, Area::first().head_gate(), OPEN_MARK)?;
    let is_second = begins_in_either(file, sectors, Area::second().head_gate(), OPEN_MARK)?;
    Ok(is_first || is_second)
}

/// Whether the file has the mark of a head.
fn has_head_mark<F: DiskFile>(file: &mut F, sectors: u64) -> io::Result<bool>
    requires { 512 * sectors < 2 ^ 64 }
    ensures steady { (F.file file.new).behaves ≡ (F.file file.old).behaves }
    ensures same { Behaves (F.file file.old) → F.file file.new ≡ F.file file.old }
    ensures found { Behaves (F.file file.old)
        → IfOk result (λ is. IsTrue is ↔ HasHeadMark (F.file file.old) sectors) }
{
    let is_first = begins_in_either(file, sectors, Area::first().head_body(), HEAD_MARK)?;
    let is_second = begins_in_either(file, sectors, Area::second().head_body(), HEAD_MARK)?;
    Ok(is_first || is_second)
}

/// What an interrupted `format` may have left in the sector with this number, other than the first:
/// the gate of the head and the first record, packed or spaced, and the mark of a spaced file. It
/// leaves zeros in all other sectors.
fn leftover(number: u64) -> [u8; SECTOR]
    ensures { result ≡ leftover number }
{
    if number == 1 || number == 8 {
        return open_gate();
    }
    if number == 2 || number == 16 {
        return encode(&Record::default());
    }
    if number == SPACED_MARK_SECTOR {
        return spaced_mark();
    }
    CLOSED_GATE
}

/// Whether each octet of a sector is zero or equals the octet at the same place in the other.
fn is_part_of(sector: &[u8; SECTOR], whole: &[u8; SECTOR]) -> bool
    ensures { IsTrue result ↔ IsPartOf sector.now whole.now }
{
    for i in 0..SECTOR {
        if sector[i] != 0 && sector[i] != whole[i] {
            return false;
        }
    }
    true
}

/// Whether a sector is a head.
fn is_head(sector: &[u8; SECTOR]) -> bool
    ensures { IsTrue result ↔ ((head : Head) × IsHeadOf head sector.now) }
{
    decode_head(sector).is_some()
}

/// Whether the sector with this number holds zeros, or what an interrupted `format` may have left
/// there: in the first one a head.
fn is_unused(number: u64, sector: &[u8; SECTOR]) -> bool
    ensures { IsTrue result ↔ IsUnused number sector.now }
{
    if number == 0 && is_head(sector) {
        return true;
    }
    is_part_of(sector, &leftover(number))
}

/// The first sector from this one on that may hold anything but zeros. Holes of the file are looked
/// up before each block of `HOLE_SECTORS`.
fn next_data<F: DiskFile>(file: &mut F, number: u64) -> u64
    requires { 512 * number < 2 ^ 64 }
    ensures after { number ≤ result }
    ensures steady { (F.file file.new).behaves ≡ (F.file file.old).behaves }
    ensures same { Behaves (F.file file.old) → F.file file.new ≡ F.file file.old }
    ensures zeros { Behaves (F.file file.old) → (k : ℕ) → number ≤ k → k < result
        → HasZeros (F.file file.old) (512 * k) (512 * k + 512) }
{
    if number % HOLE_SECTORS != 0 {
        return number;
    }
    file.zeros_end(SECTOR as u64 * number) / SECTOR as u64
}

/// Whether all sectors of a file are unused.
fn is_blank<F: DiskFile>(file: &mut F, sectors: u64) -> io::Result<bool>
    requires { 512 * sectors < 2 ^ 64 }
    ensures steady { (F.file file.new).behaves ≡ (F.file file.old).behaves }
    ensures same { Behaves (F.file file.old) → F.file file.new ≡ F.file file.old }
    ensures found { Behaves (F.file file.old)
        → IfOk result (λ is. IsTrue is ↔ IsBlankFile (F.file file.old) sectors) }
{
    let mut sector = CLOSED_GATE;
    let mut number = 0;
    for _round in 0..sectors {
        number = next_data(file, number);
        if number >= sectors {
            return Ok(true);
        }
        read_sector(file, number, &mut sector)?;
        if !is_unused(number, &sector) {
            return Ok(false);
        }
        number += 1;
    }
    Ok(true)
}

/// What a file of `sectors` sectors holds. The file is not changed.
pub fn contents_of<F: DiskFile>(file: &mut F, sectors: u64) -> io::Result<Contents>
    requires { 512 * sectors < 2 ^ 64 }
    ensures steady { (F.file file.new).behaves ≡ (F.file file.old).behaves }
    ensures same { Behaves (F.file file.old) → F.file file.new ≡ F.file file.old }
    ensures are { Behaves (F.file file.old)
        → IfOk result (ContentsAre (F.file file.old) sectors) }
{
    if has_open_gate(file, sectors)? {
        return Ok(Contents::Endpoint);
    }
    if is_blank(file, sectors)? {
        return Ok(Contents::Blank);
    }
    Ok(Contents::Other)
}

/// Whether a file holds an endpoint, in use or not: either area has the mark of a head or an open
/// head gate, packed or spaced. The file is not changed.
pub fn holds_endpoint<F: DiskFile>(file: &mut F) -> io::Result<bool>
    ensures steady { (F.file file.new).behaves ≡ (F.file file.old).behaves }
    ensures same { Behaves (F.file file.old) → F.file file.new ≡ F.file file.old }
    ensures holds { Behaves (F.file file.old)
        → IfOk result
        (λ is. IsTrue is ↔ HoldsEndpoint (F.file file.old) ((F.file file.old).size / 512)) }
{
    let sectors = file.size()? / SECTOR as u64;
    let has_mark = has_head_mark(file, sectors)?;
    let has_gate = has_open_gate(file, sectors)?;
    Ok(has_mark || has_gate)
}
