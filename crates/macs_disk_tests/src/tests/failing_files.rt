//! Disks in files each of whose calls fails in turn, or that move few octets at a time.

use super::Call::Fill;
use super::{make, seen};
use macs_disk::{ClaimedFile, DiskFile, FileDisk, FileFault, Layout, SectorDisk};
use std::cell::Cell;
use std::io;
use std::io::{Cursor, ErrorKind, Read, Seek, SeekFrom, Write};
use std::process::Abort;

/// The calls of the file that is copied and of its copy, of which one fails.
#[derive(Drop)]
struct Calls {
    made: Cell<u64>,
    /// Which one fails, counted from 1; 0 is none.
    failing: u64,
    kind: ErrorKind,
}

impl Calls {
    fn new(failing: u64, kind: ErrorKind) -> Calls {
        Calls {
            made: Cell::new(0),
            failing,
            kind,
        }
    }

    fn make(&self) -> io::Result<()> {
        let made = self.made.get().saturating_add(1);
        self.made.set(made);
        if made == self.failing {
            return Err(io::Error::from(self.kind));
        }
        Ok(())
    }
}

/// A file in memory that has 4 sectors of room.
#[derive(Drop)]
struct FailingFile<'a> {
    calls: &'a Calls,
    /// How many octets a read or a write moves at most.
    most: usize,
    /// How many octets the file says that it has.
    length: u64,
    octets: Cursor<[u8; 2_048]>,
}

impl FailingFile<'_> {
    /// Begins a read or a write from an octet on.
    fn go_to(&mut self, at: u64) -> io::Result<()> {
        self.calls.make()?;
        self.octets.seek(SeekFrom::Start(at))?;
        Ok(())
    }
}

impl DiskFile for FailingFile<'_> {
    ghost use Rattle.macs_disk.specs.Evidence.{no-claim};

    fn claim(&mut self) -> io::Result<()> {
        self.calls.make()
    }

    fn size(&mut self) -> io::Result<u64> {
        self.calls.make()?;
        Ok(self.length)
    }

    fn read_at(&mut self, at: u64, into: &mut [u8]) -> io::Result<usize> {
        self.go_to(at)?;
        let count = into.len().min(self.most);
        self.octets.read(&mut into[..count])
    }

    fn write_at(&mut self, at: u64, from: &[u8]) -> io::Result<usize> {
        self.go_to(at)?;
        let count = from.len().min(self.most);
        let count = self.octets.write(&from[..count])?;
        self.length = self.length.max(at.saturating_add(count as u64));
        Ok(count)
    }

    fn sync(&mut self) -> io::Result<()> {
        self.calls.make()
    }

    ghost sound = { λ _ behaves. no-claim behaves };
}

/// A file of so many octets of zeros.
fn file(calls: &Calls, length: u64, most: usize) -> FailingFile<'_> {
    FailingFile {
        calls,
        most,
        length,
        octets: Cursor::new([0; 2_048]),
    }
}

/// Whether a write of 7 was done, what is read then, and whether a sync was done.
type Use = (bool, Option<u8>, bool);

fn used<D: SectorDisk>(rt: &impl Abort, disk: &mut D) -> Use {
    let is_written = make(rt, disk, Fill(3, 7)).is_ok();
    let read = seen(rt, disk, 3).ok();
    (is_written, read, disk.sync().is_ok())
}

/// The use of a disk, or why there is none.
type Life = Result<Use, FileFault>;

/// The life of a disk of 4 sectors in a copy of a file of so many octets.
fn live(rt: &impl Abort, calls: &Calls, length: u64, most: usize) -> Life {
    let mut old = ClaimedFile::of(file(calls, length, most))?;
    let mut disk = FileDisk::over(&mut old, file(calls, 0, most), 4)?;
    assert!(rt; disk.sectors() == 4);
    Ok(used(rt, &mut disk))
}

/// The life of the disk is this one, where this call fails.
fn expect(rt: &impl Abort, length: u64, most: usize, failing: u64, kind: ErrorKind, life: Life) {
    let calls = Calls::new(failing, kind);
    assert!(rt;
        live(rt, &calls, length, most) == life,
        "{length} and {most} octets, call {failing}"
    );
}

const DONE: Life = Ok((true, Some(7), true));

const REFUSED: Life = Err(FileFault::Open);

const NO_DEVICE: Life = Err(FileFault::Device);

const NO_MEMORY: Life = Err(FileFault::Memory);

const NOT_WRITTEN: Life = Ok((false, None, false));

const NOT_READ: Life = Ok((true, None, false));

const NOT_SYNCED: Life = Ok((true, Some(7), false));

/// What is answered where no call fails, and where this one does: the claim of the file, its size
/// and the read of it; the write of the copy and its sync; the write of zeros and its sync; and of
/// the disk the write, the read and the sync. Want of memory is reported where there is no disk
/// yet, but for the calls that find out what the file has, and make the copy durable. An
/// interrupted write or read is tried again. Each call after one that failed fails.
const LIVES: [(ErrorKind, [Life; 11]); 3] = [
    (
        ErrorKind::Other,
        [
            DONE,
            REFUSED,
            REFUSED,
            NO_DEVICE,
            REFUSED,
            NO_DEVICE,
            REFUSED,
            REFUSED,
            NOT_WRITTEN,
            NOT_READ,
            NOT_SYNCED,
        ],
    ),
    (
        ErrorKind::OutOfMemory,
        [
            DONE,
            NO_MEMORY,
            NO_MEMORY,
            NO_DEVICE,
            NO_MEMORY,
            NO_DEVICE,
            NO_MEMORY,
            NO_MEMORY,
            NOT_WRITTEN,
            NOT_READ,
            NOT_SYNCED,
        ],
    ),
    (
        ErrorKind::Interrupted,
        [
            DONE, REFUSED, REFUSED, DONE, DONE, NO_DEVICE, DONE, REFUSED, DONE, DONE, NOT_SYNCED,
        ],
    ),
];

#[test]
fn each_call_that_fails_is_answered(rt: HostRuntime) {
    for (kind, lives) in LIVES {
        for (failing, life) in lives.into_iter().enumerate() {
            expect(&rt, 1_024, 2_048, failing as u64, kind, life);
        }
    }
}

/// What is answered where no call fails of those that make a blank disk, and where this one does:
/// two writes of zeros. The file has no room for all of these, and the second writes none, so there
/// is no disk where no call fails.
const NOT_BLANK: [(ErrorKind, [FileFault; 3]); 2] = [
    (
        ErrorKind::Other,
        [FileFault::Open, FileFault::Open, FileFault::Open],
    ),
    (
        ErrorKind::OutOfMemory,
        [FileFault::Open, FileFault::Memory, FileFault::Memory],
    ),
];

/// Why there is no blank disk.
fn refused(calls: &Calls) -> Option<FileFault> {
    FileDisk::blank(file(calls, 0, 2_048), Layout::Packed).err()
}

#[test]
fn each_call_of_a_blank_disk_that_fails_is_answered(rt: HostRuntime) {
    for (kind, faults) in NOT_BLANK {
        for (failing, fault) in faults.into_iter().enumerate() {
            let calls = Calls::new(failing as u64, kind);
            assert!(rt; refused(&calls) == Some(fault), "call {failing}");
        }
    }
}

/// How many octets the file has and a call moves at most, which call fails, and the life: short
/// moves are finished, and one that moves nothing fails. Of 2,048 octets that move by 256, the
/// copy is calls 3 to 18, a read and a write in turn, and 19 its sync; a sector is written by calls
/// 20 and 21, and read by 22 and 23. A file that has fewer octets than it said is not copied.
const SHORT: [(u64, usize, u64, ErrorKind, Life); 12] = [
    (1_024, 1, 0, ErrorKind::Other, DONE),
    (1_024, 100, 0, ErrorKind::Other, DONE),
    (1_024, 511, 0, ErrorKind::Other, DONE),
    (1_024, 0, 0, ErrorKind::Other, NO_DEVICE),
    (0, 0, 0, ErrorKind::Other, REFUSED),
    (2_048, 1, 0, ErrorKind::Other, DONE),
    (2_048, 256, 17, ErrorKind::Other, NO_DEVICE),
    (2_048, 256, 18, ErrorKind::Other, REFUSED),
    (2_048, 256, 19, ErrorKind::Other, NO_DEVICE),
    (2_048, 256, 23, ErrorKind::Other, NOT_READ),
    (2_048, 256, 23, ErrorKind::Interrupted, DONE),
    (2_560, 2_048, 0, ErrorKind::Other, NO_DEVICE),
];

#[test]
fn short_moves_are_finished(rt: HostRuntime) {
    for (length, most, failing, kind, life) in SHORT {
        expect(&rt, length, most, failing, kind, life);
    }
}

/// The copy ends where the file does, and no more is waited for.
#[test]
fn a_file_that_has_less_than_it_says_is_no_disk(rt: HostRuntime) {
    expect(&rt, 2_560, 2_048, 0, ErrorKind::Other, NO_DEVICE);
}
