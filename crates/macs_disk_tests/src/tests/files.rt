//! Disks in files of the operating system: what is found again, how long a file is then, and which
//! files are refused.

use super::Call::{Fill, Read, Sync};
use super::{Call, done, expect, is_missing, make};
use macs_disk::{ClaimedFile, FileDisk, FileFault, SectorDisk, make_file};
use std::fs::File;
use std::os::fd::AsRawFd;
use std::os::unix::fs::PermissionsExt;
use std::process::Abort;
use std::rt::Files;
use std::test::Fail;
use std::{fs, io};

/// How many sectors a disk has, or why there is none.
type Answer = Result<u64, FileFault>;

/// A step of a story of one file and the disk in it. A disk that is opened or made takes the place
/// of the present one; where there is none, the present one stays.
#[derive(Clone, Copy)]
enum Step {
    /// Makes the file again, so many octets of zeros, behind the back of a present disk.
    Zeros(u64),
    Open(Answer),
    Create(u64, Answer),
    /// A call that is done.
    Make(Call),
    /// A call that fails.
    Fails(Call),
    /// Lets go of the disk.
    Close,
    /// The file has so many octets.
    HasOctets(u64),
    /// Nobody but its owner may read or write the file.
    IsPrivate,
    /// There is no file.
    IsMissing,
}

use Step::{Close, Create, Fails, HasOctets, IsMissing, IsPrivate, Make, Open, Zeros};

/// Makes the file again, so many octets of zeros.
fn zeros(rt: &impl Files<File = File>, path: &str, octets: u64) -> io::Result<()> {
    fs::create(rt, path)?.set_len(octets)
}

fn has_octets(rt: &impl Files<File = File>, path: &str, octets: u64) -> io::Result<bool> {
    let about = fs::metadata(rt, path)?;
    Ok(about.len() == octets)
}

fn is_private(rt: &impl Files<File = File>, path: &str) -> io::Result<bool> {
    let about = fs::metadata(rt, path)?;
    Ok(about.permissions().mode() & 0o077 == 0)
}

/// Puts a new disk in the place of the present one. How many sectors it has, or why there is none.
fn replace(disk: &mut Option<FileDisk>, new: Result<FileDisk, FileFault>) -> Answer {
    match new {
        Ok(new) => {
            let sectors = new.sectors();
            *disk = Some(new);
            Ok(sectors)
        }
        Err(fault) => Err(fault),
    }
}

/// Makes a call, and says whether it was done.
fn is_done(rt: &impl Abort, disk: &mut Option<FileDisk>, call: Call) -> bool {
    let Some(disk) = disk else {
        panic!(rt; "no disk stands");
    };
    make(rt, disk, call).is_ok()
}

/// Whether there is no file NAME.new, which an opening makes for a while.
fn is_alone(rt: &(impl Files<File = File> + AllocGlobal), path: &str) -> io::Result<bool> {
    let new = format!(in rt.alloc(); "{path}.new")?;
    Ok(!matches!(fs::exists(rt, &new), Ok(true)))
}

/// Opens the disk: whether with this answer.
fn opens(
    rt: &(impl Files<File = File> + AllocGlobal),
    path: &str,
    disk: &mut Option<FileDisk>,
    wanted: Answer,
) -> io::Result<bool> {
    let answer = replace(disk, FileDisk::open(rt, rt.alloc(), path));
    Ok(answer == wanted && is_alone(rt, path)?)
}

/// Makes a disk of so many sectors: whether with this answer.
fn creates(
    rt: &(impl Files<File = File> + AllocGlobal),
    path: &str,
    disk: &mut Option<FileDisk>,
    sectors: u64,
    wanted: Answer,
) -> io::Result<bool> {
    let answer = replace(disk, FileDisk::create(rt, rt.alloc(), path, sectors));
    Ok(answer == wanted && is_alone(rt, path)?)
}

/// Takes one step.
fn take(
    rt: &(impl Abort + Files<File = File> + AllocGlobal),
    path: &str,
    disk: &mut Option<FileDisk>,
    step: Step,
) {
    match step {
        Zeros(octets) => done(rt, zeros(rt, path, octets)),
        Open(wanted) => expect(rt, opens(rt, path, disk, wanted)),
        Create(sectors, wanted) => expect(rt, creates(rt, path, disk, sectors, wanted)),
        Make(call) => expect(rt, Ok(is_done(rt, disk, call))),
        Fails(call) => expect(rt, Ok(!is_done(rt, disk, call))),
        Close => *disk = None,
        HasOctets(wanted) => expect(rt, has_octets(rt, path, wanted)),
        IsPrivate => expect(rt, is_private(rt, path)),
        IsMissing => expect(rt, is_missing(rt, path)),
    }
}

/// Takes steps, one after the other, from no disk on.
fn play(rt: &(impl Abort + Files<File = File> + AllocGlobal), path: &str, story: &[Step]) {
    let mut disk = None;
    for step in story {
        take(rt, path, &mut disk, *step);
    }
}

/// Takes steps on a file that is not there at first, and that is removed at the end.
fn begin(rt: &(impl Abort + Files<File = File> + AllocGlobal), path: &str, story: &[Step]) {
    let _ = fs::remove_file(rt, path);
    play(rt, path, story);
    done(rt, fs::remove_file(rt, path));
}

const FOUND_AGAIN: &[Step] = &[
    Open(Err(FileFault::Open)),
    IsMissing,
    Create(4, Ok(4)),
    IsPrivate,
    HasOctets(2_048),
    Make(Read(3, 0)),
    Make(Fill(3, 7)),
    Make(Fill(2, 6)),
    Make(Read(3, 7)),
    Make(Sync),
    Make(Fill(0, 1)),
    Make(Fill(3, 8)),
    Close,
    Open(Ok(4)),
    Make(Read(0, 1)),
    Make(Read(1, 0)),
    Make(Read(2, 6)),
    Make(Read(3, 8)),
    HasOctets(2_048),
];

#[test]
fn what_was_written_is_found_again(rt: HostRuntime) {
    begin(&rt, "disk-found-again", FOUND_AGAIN);
}

/// A file is lengthened with zeros, and neither cut nor emptied.
const LENGTHENED: &[Step] = &[
    Create(3, Ok(3)),
    Make(Fill(0, 1)),
    Make(Fill(1, 2)),
    Make(Fill(2, 3)),
    Close,
    Create(2, Ok(3)),
    HasOctets(1_536),
    Make(Read(0, 1)),
    Make(Read(1, 2)),
    Make(Read(2, 3)),
    Close,
    Create(5, Ok(5)),
    HasOctets(2_560),
    Make(Read(0, 1)),
    Make(Read(1, 2)),
    Make(Read(2, 3)),
    Make(Read(3, 0)),
    Make(Read(4, 0)),
    Close,
    Create(0, Ok(5)),
];

#[test]
fn a_file_is_lengthened_and_never_cut(rt: HostRuntime) {
    begin(&rt, "disk-lengthened", LENGTHENED);
}

/// 1,028 sectors are 526,336 octets.
const LENGTHS: &[Step] = &[
    Zeros(526_336),
    Open(Ok(1_028)),
    Make(Fill(1_027, 9)),
    Make(Read(1_027, 9)),
    Close,
    Zeros(526_337),
    Open(Err(FileFault::Length)),
    Create(1_028, Err(FileFault::Length)),
    Create(2_000, Err(FileFault::Length)),
    HasOctets(526_337),
    Zeros(511),
    Open(Err(FileFault::Length)),
    Zeros(1),
    Create(1, Err(FileFault::Length)),
    HasOctets(1),
    Zeros(0),
    Open(Ok(0)),
    Close,
    Zeros(512),
    Open(Ok(1)),
];

#[test]
fn a_file_is_whole_sectors(rt: HostRuntime) {
    begin(&rt, "disk-lengths", LENGTHS);
}

/// The octets of so many sectors cannot be counted.
const TOO_MANY: &[Step] = &[
    Zeros(1_024),
    Create(1 << 54, Err(FileFault::Open)),
    Create(1 << 55, Err(FileFault::Open)),
    Create((1 << 55) + 2, Err(FileFault::Open)),
    Create(u64::MAX, Err(FileFault::Open)),
    HasOctets(1_024),
    Open(Ok(2)),
];

#[test]
fn too_many_sectors_are_refused(rt: HostRuntime) {
    begin(&rt, "disk-too-many", TOO_MANY);
}

/// While a disk is there its file is not opened again.
const CLAIMED: &[Step] = &[
    Create(2, Ok(2)),
    Open(Err(FileFault::Open)),
    Create(2, Err(FileFault::Open)),
    Create(3, Err(FileFault::Open)),
    HasOctets(1_024),
    Make(Fill(1, 3)),
    Close,
    Open(Ok(2)),
    Create(2, Err(FileFault::Open)),
    Make(Read(1, 3)),
    // The claim comes before the length, which is no longer one of whole sectors.
    Zeros(1_000),
    Open(Err(FileFault::Open)),
    Create(2, Err(FileFault::Open)),
    HasOctets(1_000),
    Close,
    Open(Err(FileFault::Length)),
];

#[test]
fn a_file_has_one_disk_at_a_time(rt: HostRuntime) {
    begin(&rt, "disk-claimed", CLAIMED);
}

/// A sector that the file no longer has whole is not read. Each later call of that disk fails, and
/// a new one is opened.
const CUT: &[Step] = &[
    Create(3, Ok(3)),
    Make(Fill(1, 5)),
    Zeros(1_000),
    Make(Read(0, 0)),
    Fails(Read(1, 5)),
    Fails(Read(0, 0)),
    Fails(Fill(0, 1)),
    Fails(Sync),
    Close,
    Zeros(1_536),
    Open(Ok(3)),
    Make(Fill(0, 4)),
    Zeros(1_000),
    Fails(Read(2, 0)),
    Fails(Sync),
    HasOctets(1_000),
    Close,
    Zeros(512),
    Open(Ok(1)),
    Zeros(0),
    Fails(Read(0, 0)),
];

#[test]
fn a_file_that_ends_early_fails_its_reads(rt: HostRuntime) {
    begin(&rt, "disk-cut", CUT);
}

/// A folder, a file in a folder that is not there, and a name that no file has.
#[test]
fn what_cannot_be_opened_is_refused(rt: HostRuntime) {
    for path in [".", "no-such-folder/disk", "disk\0", ""] {
        play(
            &rt,
            path,
            &[Open(Err(FileFault::Open)), Create(1, Err(FileFault::Open))],
        );
    }
}

/// A pipe has no name in a folder.
const PIPE: &[Step] = &[
    Open(Err(FileFault::Open)),
    Create(0, Err(FileFault::Open)),
    Create(1, Err(FileFault::Open)),
];

#[test]
fn a_pipe_is_no_disk(rt: HostRuntime) -> Result<(), Fail> {
    let (reader, _writer) = io::pipe(&rt)?;
    let path = format!(in rt.alloc(); "/proc/self/fd/{}", reader.as_raw_fd())?;
    play(&rt, path.as_str(), PIPE);
    Ok(())
}

/// A file that can be claimed and measured, in a folder where none can be made.
#[test]
fn what_has_no_room_beside_it_is_no_disk(rt: HostRuntime) {
    play(&rt, "/proc/self/comm", &[Open(Err(FileFault::Open))]);
}

/// Why there is no disk in the copy of an empty file.
fn refused(rt: &impl Abort, old: File, new: File) -> Option<FileFault> {
    let Ok(mut old) = ClaimedFile::of(old) else {
        panic!(rt; "not claimed");
    };
    FileDisk::over(&mut old, new, 0).err()
}

/// The copy of an empty file is made in a file that the system does not sync.
#[test]
fn what_cannot_be_synced_is_no_disk(rt: HostRuntime) -> Result<(), Fail> {
    let old = make_file(&rt, "disk-not-synced")?;
    let new = make_file(&rt, "/proc/self/comm")?;
    assert!(rt; refused(&rt, old, new) == Some(FileFault::Device));
    done(&rt, fs::remove_file(&rt, "disk-not-synced"));
    Ok(())
}
