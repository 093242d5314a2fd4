//! Openings of a disk over a system each of whose calls fails in turn, or where the file's name is
//! another's meanwhile.

use super::{done, expect, is_missing, sectors};
use macs_disk::{DiskFile, FileDisk, FileFault};
use std::alloc::Allocator;
use std::cell::Cell;
use std::fs::{File, Metadata, OpenFile, OpenOptions, Permissions};
use std::io::{ErrorKind, Read, Seek, SeekFrom, Write};
use std::os::unix::fs::{MetadataExt, PermissionsExt};
use std::path::PathBuf;
use std::process::Abort;
use std::rt::Files;
use std::{fs, io};

/// The calls of the system and of its files, of which one fails.
#[derive(Drop)]
struct Calls {
    made: Cell<u64>,
    /// Which one fails, counted from 1; 0 is none.
    failing: u64,
    kind: ErrorKind,
    /// The program ends there: each later call fails too.
    is_end: bool,
}

impl Calls {
    fn new(failing: u64, kind: ErrorKind, is_end: bool) -> Calls {
        Calls {
            made: Cell::new(0),
            failing,
            kind,
            is_end,
        }
    }

    /// Calls of which none fails.
    fn all_done() -> Calls {
        Calls::new(0, ErrorKind::Other, false)
    }

    fn make(&self) -> io::Result<()> {
        let made = self.made.get().saturating_add(1);
        self.made.set(made);
        if made == self.failing || self.is_end && made > self.failing {
            return Err(io::Error::from(self.kind));
        }
        Ok(())
    }
}

/// A file of the system.
#[derive(Drop)]
struct CountedFile<'a> {
    file: File,
    calls: &'a Calls,
    /// What is known of it is said to be that of another user's file, once.
    is_strange: Cell<bool>,
}

impl Read for CountedFile<'_> {
    fn read(&mut self, into: &mut [u8]) -> io::Result<usize> {
        self.file.read(into)
    }
}

impl Write for CountedFile<'_> {
    fn write(&mut self, from: &[u8]) -> io::Result<usize> {
        self.file.write(from)
    }

    fn flush(&mut self) -> io::Result<()> {
        self.file.flush()
    }
}

impl Seek for CountedFile<'_> {
    fn seek(&mut self, to: SeekFrom) -> io::Result<u64> {
        self.file.seek(to)
    }
}

impl OpenFile for CountedFile<'_> {
    fn metadata(&self) -> io::Result<Metadata> {
        self.calls.make()?;
        if self.is_strange.replace(false) {
            return Ok(Metadata::of_file(0));
        }
        self.file.metadata()
    }

    fn set_len(&self, size: u64) -> io::Result<()> {
        self.file.set_len(size)
    }

    /// Only a folder is synced so: what a rename changes is not in the file.
    fn sync_all(&self) -> io::Result<()> {
        self.calls.make()?;
        if !self.file.metadata()?.is_dir() {
            return Err(io::Error::from(ErrorKind::NotADirectory));
        }
        self.file.sync_all()
    }

    fn sync_data(&self) -> io::Result<()> {
        self.file.sync_data()
    }

    fn set_permissions(&self, perm: Permissions) -> io::Result<()> {
        self.calls.make()?;
        self.file.set_permissions(perm)
    }
}

impl DiskFile for CountedFile<'_> {
    ghost use Rattle.macs_disk.specs.Evidence.{no-claim};

    fn claim(&mut self) -> io::Result<()> {
        self.calls.make()?;
        self.file.claim()
    }

    fn size(&mut self) -> io::Result<u64> {
        self.calls.make()?;
        self.file.size()
    }

    fn read_at(&mut self, at: u64, into: &mut [u8]) -> io::Result<usize> {
        self.calls.make()?;
        self.file.read_at(at, into)
    }

    fn write_at(&mut self, at: u64, from: &[u8]) -> io::Result<usize> {
        self.calls.make()?;
        self.file.write_at(at, from)
    }

    fn sync(&mut self) -> io::Result<()> {
        self.calls.make()?;
        self.file.sync()
    }

    ghost sound = { λ _ behaves. no-claim behaves };
}

/// What the system does beside its calls.
#[derive(Clone, Copy)]
enum Oddity {
    Nothing,
    /// This file gets the name, once the one that has it was claimed.
    Swaps(&'static str),
    /// A rename is answered as done, and is not.
    RenamesNothing,
    /// A file that is removed is there again at once.
    RemovesNothing,
}

/// The system, but for its oddity and the call that fails.
#[derive(Clone, Copy)]
struct Counted<'a, R> {
    system: &'a R,
    calls: &'a Calls,
    oddity: Oddity,
}

impl<'a, R: Files<File = File>> Files for Counted<'a, R> {
    type File = CountedFile<'a>;

    type Dir = R::Dir;

    fn open_file(&self, how: &OpenOptions, path: &str) -> io::Result<CountedFile<'a>> {
        self.calls.make()?;
        let file = self.system.open_file(how, path)?;
        let is_new = path.ends_with(".new");
        // It is its owner's alone from its first moment on.
        if is_new && file.metadata()?.mode() & 0o077 != 0 {
            return Err(io::Error::from(ErrorKind::PermissionDenied));
        }
        Ok(CountedFile {
            file,
            calls: self.calls,
            is_strange: Cell::new(is_new),
        })
    }

    fn open_dir(&self, path: &str) -> io::Result<R::Dir> {
        self.system.open_dir(path)
    }

    fn metadata(&self, path: &str) -> io::Result<Metadata> {
        self.system.metadata(path)
    }

    fn symlink_metadata(&self, path: &str) -> io::Result<Metadata> {
        self.calls.make()?;
        self.system.symlink_metadata(path)
    }

    fn copy(&self, from: &str, to: &str) -> io::Result<u64> {
        self.system.copy(from, to)
    }

    fn rename(&self, from: &str, to: &str) -> io::Result<()> {
        self.calls.make()?;
        match self.oddity {
            Oddity::RenamesNothing => Ok(()),
            _ => self.system.rename(from, to),
        }
    }

    fn remove_file(&self, path: &str) -> io::Result<()> {
        self.calls.make()?;
        match self.oddity {
            Oddity::RemovesNothing => Ok(()),
            _ => self.system.remove_file(path),
        }
    }

    fn create_dir(&self, path: &str) -> io::Result<()> {
        self.system.create_dir(path)
    }

    fn remove_dir(&self, path: &str) -> io::Result<()> {
        self.system.remove_dir(path)
    }

    fn remove_dir_all<B: Allocator>(&self, alloc: B, path: &str) -> io::Result<()> {
        self.system.remove_dir_all(alloc, path)
    }

    fn canonicalize<B: Allocator>(&self, alloc: B, path: &str) -> io::Result<PathBuf<B>> {
        self.calls.make()?;
        if let Oddity::Swaps(other) = self.oddity {
            self.system.rename(other, path)?;
        }
        self.system.canonicalize(alloc, path)
    }

    fn lchown(&self, path: &str, uid: Option<u32>, gid: Option<u32>) -> io::Result<()> {
        self.calls.make()?;
        self.system.lchown(path, uid, gid)
    }
}

/// A file's two sectors, full of an octet each.
fn octets(first: u8, second: u8) -> [u8; 1_024] {
    let mut octets = [0; 1_024];
    octets[..512].fill(first);
    octets[512..].fill(second);
    octets
}

/// A file's owner where a test may choose it.
const SOMEBODY: Option<u32> = Some(1);

/// Makes a file anew, of these octets, that its group may read. It is another user's where the
/// tests run as the superuser.
fn make(rt: &impl Files<File = File>, path: &str, octets: &[u8; 1_024]) -> io::Result<()> {
    let _ = fs::remove_file(rt, path);
    fs::write(rt, path, octets)?;
    rt.set_permissions(path, Permissions::from_mode(0o640))?;
    let _ = rt.chown(path, SOMEBODY, SOMEBODY);
    Ok(())
}

/// Whether a file has these octets.
fn has(
    rt: &(impl Files<File = File> + AllocGlobal),
    path: &str,
    octets: &[u8; 1_024],
) -> io::Result<bool> {
    let found = fs::read(rt, path)?;
    Ok(found.as_slice() == octets.as_slice())
}

/// How many sectors a disk has that is opened over this system, or why there is none.
fn open<R: Files<File = File> + AllocGlobal>(
    rt: &R,
    calls: &Calls,
    oddity: Oddity,
    path: &str,
) -> Result<u64, FileFault> {
    let system = Counted {
        system: rt,
        calls,
        oddity,
    };
    sectors(FileDisk::open(&system, rt.alloc(), path))
}

const DISK: &str = "renewal-disk";

const NEW: &str = "renewal-disk.new";

/// The calls of an opening, in their order, by the fault where each fails: the file is opened,
/// claimed and measured; its name is resolved, what is known of the file is asked for, and whether
/// the name is its own; what has the new name is removed; the new file is made, claimed, compared
/// with the old one, given its owner and its mode, and identified; the octets are read, written and
/// synced; the folder is opened, the file renamed, the folder synced, and whether the name is the
/// new file's is asked.
const CALLS: [FileFault; 20] = [
    FileFault::Open,
    FileFault::Open,
    FileFault::Open,
    FileFault::Open,
    FileFault::Open,
    FileFault::Open,
    FileFault::Open,
    FileFault::Open,
    FileFault::Open,
    FileFault::Open,
    FileFault::Open,
    FileFault::Open,
    FileFault::Open,
    FileFault::Device,
    FileFault::Open,
    FileFault::Device,
    FileFault::Open,
    FileFault::Open,
    FileFault::Open,
    FileFault::Open,
];

/// Which of them is the rename.
const RENAME: u64 = 18;

/// What the system knows of the file of the disk.
fn about(rt: &(impl Abort + Files<File = File>)) -> Metadata {
    match fs::metadata(rt, DISK) {
        Ok(about) => about,
        Err(_) => panic!(rt; "no file"),
    }
}

/// Makes that file.
fn made(rt: &(impl Abort + Files<File = File>)) -> Metadata {
    done(rt, make(rt, DISK, &octets(3, 4)));
    about(rt)
}

/// Opens the disk where this call fails, with this fault. The name is that of a file with all
/// octets then: of the new one only once the file was renamed.
fn fail<R: Abort + Files<File = File> + AllocGlobal>(rt: &R, calls: &Calls, fault: FileFault) {
    let before = made(rt);
    let failing = calls.failing;
    let answer = open(rt, calls, Oddity::Nothing, DISK);
    assert!(rt; answer == Err(fault), "call {failing}");
    let is_new = about(rt).ino() != before.ino();
    assert!(rt; is_new == (failing > RENAME), "call {failing}");
    expect(rt, has(rt, DISK, &octets(3, 4)));
    expect_private(rt, before.uid());
}

/// What lies beside the disk is for its owner alone, unless that is the owner of the disk.
fn expect_private<R: Abort + Files<File = File>>(rt: &R, owner: u32) {
    match fs::metadata(rt, NEW) {
        Ok(about) => assert!(rt; about.uid() == owner || about.mode() & 0o077 == 0),
        Err(error) => assert!(rt; error.kind() == ErrorKind::NotFound),
    }
}

/// The next opening of the disk is done, and leaves nothing behind.
fn open_next<R: Abort + Files<File = File> + AllocGlobal>(rt: &R) {
    assert!(rt; open(rt, &Calls::all_done(), Oddity::Nothing, DISK) == Ok(2));
    expect(rt, has(rt, DISK, &octets(3, 4)));
    expect(rt, is_missing(rt, NEW));
}

#[test]
fn each_call_of_an_opening_that_fails_is_answered(rt: HostRuntime) {
    for (i, fault) in CALLS.into_iter().enumerate() {
        let calls = Calls::new(i as u64 + 1, ErrorKind::Other, false);
        fail(&rt, &calls, fault);
        assert!(rt; matches!(is_missing(&rt, NEW), Ok(true)), "call {i}");
    }
    open_next(&rt);
    done(&rt, fs::remove_file(&rt, DISK));
}

#[test]
fn want_of_memory_of_an_opening_is_reported(rt: HostRuntime) {
    for (i, fault) in CALLS.into_iter().enumerate() {
        let wanted = match fault {
            FileFault::Open => FileFault::Memory,
            other => other,
        };
        let calls = Calls::new(i as u64 + 1, ErrorKind::OutOfMemory, false);
        fail(&rt, &calls, wanted);
    }
    open_next(&rt);
    done(&rt, fs::remove_file(&rt, DISK));
}

/// What is left beside the file is removed by the next opening.
#[test]
fn an_opening_that_is_cut_short_loses_nothing(rt: HostRuntime) {
    for (i, fault) in CALLS.into_iter().enumerate() {
        let calls = Calls::new(i as u64 + 1, ErrorKind::Other, true);
        fail(&rt, &calls, fault);
        open_next(&rt);
    }
    done(&rt, fs::remove_file(&rt, DISK));
}

/// A file is another than before, of the same owner and mode.
fn expect_alike(rt: &impl Abort, before: &Metadata, after: &Metadata) {
    assert!(rt; after.ino() != before.ino());
    assert!(rt; after.mode() == before.mode());
    assert!(rt; after.uid() == before.uid() && after.gid() == before.gid());
}

/// The calls that are made where none fails, and whose file it is then.
#[test]
fn an_opening_makes_these_calls(rt: HostRuntime) {
    let before = made(&rt);
    let calls = Calls::all_done();
    assert!(rt; open(&rt, &calls, Oddity::Nothing, DISK) == Ok(2));
    assert!(rt; calls.made.get() == CALLS.len() as u64);
    expect_alike(&rt, &before, &about(&rt));
    done(&rt, fs::remove_file(&rt, DISK));
}

/// A system of this oddity opens no disk in a new file of octets 3 and 4. The name is that of a
/// file with these octets then, which is removed.
fn refuse<R: Abort + Files<File = File> + AllocGlobal>(
    rt: &R,
    path: &str,
    oddity: Oddity,
    left: [u8; 1_024],
) {
    done(rt, make(rt, path, &octets(3, 4)));
    assert!(rt; open(rt, &Calls::all_done(), oddity, path) == Err(FileFault::Open));
    expect(rt, has(rt, path, &left));
    done(rt, fs::remove_file(rt, path));
}

/// The name is another file's before the new one is made: neither file is touched.
#[test]
fn a_name_that_is_another_files_is_refused(rt: HostRuntime) {
    done(&rt, make(&rt, "swapped-other", &octets(5, 6)));
    let odd = Oddity::Swaps("swapped-other");
    refuse(&rt, "swapped-disk", odd, octets(5, 6));
    expect(&rt, is_missing(&rt, "swapped-disk.new"));
}

/// The name is not the new file's after the rename: there is no disk.
#[test]
fn a_name_that_is_not_the_new_files_is_refused(rt: HostRuntime) {
    refuse(&rt, "kept-disk", Oddity::RenamesNothing, octets(3, 4));
    let _ = fs::remove_file(&rt, "kept-disk.new");
}

/// What has the name of the new file again is not written: neither file is touched.
#[test]
fn what_lies_beside_is_not_written(rt: HostRuntime) {
    done(&rt, make(&rt, "beside-disk.new", &octets(5, 6)));
    refuse(&rt, "beside-disk", Oddity::RemovesNothing, octets(3, 4));
    expect(&rt, has(&rt, "beside-disk.new", &octets(5, 6)));
    done(&rt, fs::remove_file(&rt, "beside-disk.new"));
}

/// How many sectors a disk has that is made over this system, or why there is none.
fn create<R: Files<File = File> + AllocGlobal>(
    rt: &R,
    calls: &Calls,
    path: &str,
) -> Result<u64, FileFault> {
    let system = Counted {
        system: rt,
        calls,
        oddity: Oddity::Nothing,
    };
    sectors(FileDisk::create(&system, rt.alloc(), path, 1))
}

/// Want of memory, a file without leave to read and write, and one that is not there.
const REASONS: [(ErrorKind, FileFault); 3] = [
    (ErrorKind::OutOfMemory, FileFault::Memory),
    (ErrorKind::PermissionDenied, FileFault::Open),
    (ErrorKind::NotFound, FileFault::Open),
];

/// No call of the system is done.
#[test]
fn what_is_not_opened_says_why(rt: HostRuntime) {
    for (kind, fault) in REASONS {
        let calls = Calls::new(1, kind, true);
        assert!(rt; create(&rt, &calls, "disk") == Err(fault));
        assert!(rt; open(&rt, &calls, Oddity::Nothing, "disk") == Err(fault));
    }
}
