//! How a disk in a file is made and opened.

ghost use Rattle.std.specs.Prelude.{◌≡◌, ◌≤◌, false, true, IfErr, IfOk};

use crate::claimed_file::ClaimedFile;
use crate::clearing::clear;
use crate::disk_file::DiskFile;
use crate::file::FileDisk;
use crate::file_fault::FileFault;
use crate::layout::{Layout, SPACED_SECTORS};
use crate::renewal::{OWNER_ALONE, Renewal};
use std::alloc::Allocator;
use std::fs::OpenOptions;
use std::io;
use std::os::unix::fs::OpenOptionsExt;
use std::path::AsPath;
use std::rt::Files;
use std::snapshot::Snapshot;

/// How a file is opened for reading and writing. Its contents are kept.
fn how_to_open(is_made: bool) -> OpenOptions
    ensures keeps { result.truncate ≡ false }
    ensures made { result.create ≡ is_made }
    ensures both { (result.read ≡ true) × (result.write ≡ true) × (result.append ≡ false) }
{
    let mut options = OpenOptions::new();
    // Nothing is known about the options after this, so the others are set after it.
    options.mode(OWNER_ALONE);
    options
        .read(true)
        .write(true)
        .create(is_made)
        .append(false)
        .truncate(false);
    options
}

/// Opens the file at `path` for reading and writing. If there is none it is created, for its owner
/// only. Its contents are kept.
pub fn make_file<R: Files, P: AsPath>(rt: &R, path: P) -> io::Result<R::File> {
    how_to_open(true).open(rt, path)
}

impl<F: DiskFile> FileDisk<F> {
    ghost use Rattle.macs_disk.specs.FileFailures.{WriteFails};
    ghost use Rattle.macs_disk.specs.Files.{IsEmpty};
    ghost use Rattle.macs_disk.specs.FileDisks.{IsBlank, IsFoundAgain, IsFresh, IsLeftAsShown};
    ghost use Rattle.macs_disk.specs.FileDisks.{IsMeasured, IsMadeWell, IsOpened};
    ghost use Rattle.macs_disk.specs.FileDisks.{disk_in_file, file_given};
    ghost use Rattle.macs_disk.specs.FileDisks.{file_left, file_made, layout_of};

    /// A disk of at least `sectors` sectors in the file at `path`. If there is no file it is
    /// created, for its owner only. The file is made anew as by `open`, and extended with zeros if
    /// it has fewer sectors. A longer one keeps its length, and no octet of a file is lost. A
    /// created file stays if a later step fails.
    pub fn create<R: Files<File = F>, A: Allocator + Copy>(
        rt: &R,
        alloc: A,
        path: &str,
        sectors: u64,
    ) -> Result<Self, FileFault>
        ensures least { IfOk result (λ it. sectors ≤ (disk_in_file F.file it).sectors) }
        ensures known { IfOk result (λ it. IsMadeWell F.file (file_given it) (file_made it)
            → IsOpened (F.file (file_given it)) sectors (layout_of it) (disk_in_file F.file it)) }
        ensures spaced { IfOk result (λ it. layout_of it ≡ Layout.Spaced
            → (disk_in_file F.file it).sectors ≡ 1028) }
        ensures left { IfOk result (IsLeftAsShown F.file) }
        ensures again { IfOk result (λ it. IsMadeWell F.file (file_given it) (file_made it)
            → IsFoundAgain F.file it) }
        ensures fresh { IfOk result (λ it. IsFresh (disk_in_file F.file it)) }
    {
        let file = how_to_open(true).open(rt, path)?;
        FileDisk::renewed(rt, alloc, path, file, sectors)
    }

    /// A disk of all sectors of the file at `path`. If there is no file none is created, and the
    /// fault is `Open`.
    ///
    /// The file is made anew, so that all that the disk has is durable, no matter what an earlier
    /// run left of the file in the system's memory, whoever else has its pages there. It is claimed
    /// and copied to NAME.new, which is synced and takes its name; the folder is synced. Fails with
    /// `Open` if that cannot be done: the folder may not be written, the file has a second name, or
    /// is a mount point. At each moment the name is that of a whole file with these octets.
    pub fn open<R: Files<File = F>, A: Allocator + Copy>(
        rt: &R,
        alloc: A,
        path: &str,
    ) -> Result<Self, FileFault>
        ensures known { IfOk result (λ it. IsMadeWell F.file (file_given it) (file_made it)
            → IsOpened (F.file (file_given it)) 0 (layout_of it) (disk_in_file F.file it)) }
        ensures spaced { IfOk result (λ it. layout_of it ≡ Layout.Spaced
            → (disk_in_file F.file it).sectors ≡ 1028) }
        ensures left { IfOk result (IsLeftAsShown F.file) }
        ensures again { IfOk result (λ it. IsMadeWell F.file (file_given it) (file_made it)
            → IsFoundAgain F.file it) }
        ensures fresh { IfOk result (λ it. IsFresh (disk_in_file F.file it)) }
    {
        let file = how_to_open(false).open(rt, path)?;
        FileDisk::renewed(rt, alloc, path, file, 0)
    }

    /// A disk of at least `sectors` sectors in the opened file at `path`, which is made anew.
    fn renewed<R: Files<File = F>, A: Allocator + Copy>(
        rt: &R,
        alloc: A,
        path: &str,
        file: F,
        sectors: u64,
    ) -> Result<Self, FileFault>
        ensures least { IfOk result (λ it. sectors ≤ (disk_in_file F.file it).sectors) }
        ensures known { IfOk result (λ it. IsMadeWell F.file (file_given it) (file_made it)
            → IsOpened (F.file (file_given it)) sectors (layout_of it) (disk_in_file F.file it)) }
        ensures spaced { IfOk result (λ it. layout_of it ≡ Layout.Spaced
            → (disk_in_file F.file it).sectors ≡ 1028) }
        ensures left { IfOk result (IsLeftAsShown F.file) }
        ensures again { IfOk result (λ it. IsMadeWell F.file (file_given it) (file_made it)
            → IsFoundAgain F.file it) }
        ensures fresh { IfOk result (λ it. IsFresh (disk_in_file F.file it)) }
    {
        let mut old = ClaimedFile::of(file)?;
        let mut renewal = Renewal::of(rt, alloc, path)?;
        let about = renewal.check(rt, &old.file)?;
        let new = renewal.make(rt, &about)?;
        match FileDisk::over(&mut old, new, sectors) {
            Ok(disk) => {
                renewal.put(rt)?;
                Ok(disk)
            }
            Err(fault) => {
                renewal.give_up(rt);
                Err(fault)
            }
        }
    }

    /// A disk of at least `sectors` sectors in a copy of a claimed file, made in a new, empty file.
    pub fn over(old: &mut ClaimedFile<F>, new: F, sectors: u64) -> Result<Self, FileFault>
        ensures least { IfOk result (λ it. sectors ≤ (disk_in_file F.file it).sectors) }
        ensures given { IfOk result (λ it. file_given it ≡ old.old.file) }
        ensures made { IfOk result (λ it. file_made it ≡ new) }
        ensures known { IsMeasured F.file old.old
            → IsMadeWell F.file old.old.file new → IfOk result (λ it.
            IsOpened (F.file old.old.file) sectors (layout_of it)
            (disk_in_file F.file it)) }
        ensures spaced { IfOk result (λ it. layout_of it ≡ Layout.Spaced
            → (disk_in_file F.file it).sectors ≡ 1028) }
        ensures left { IfOk result (IsLeftAsShown F.file) }
        ensures again { IsMeasured F.file old.old
            → IsMadeWell F.file old.old.file new
            → IfOk result (IsFoundAgain F.file) }
        ensures fresh { IfOk result (λ it. IsFresh (disk_in_file F.file it)) }
    {
        old.copy_into(new)?.into_disk(sectors)
    }

    /// A new disk with this layout in a new, empty file: its 1,028 sectors are zeros, which are
    /// written and synced, so that the file system has space for them.
    pub fn blank(mut file: F, layout: Layout) -> Result<FileDisk<F>, FileFault>
        ensures given { IfOk result (λ it. file_given it ≡ file) }
        ensures layout { IfOk result (λ it. layout_of it ≡ layout) }
        ensures known { IsEmpty (F.file file) → IfOk result (λ it.
            IsBlank (F.file file) (F.file (file_left it)) layout (disk_in_file F.file it)) }
        ensures left { IfOk result (IsLeftAsShown F.file) }
        ensures again { IsEmpty (F.file file) → IfOk result (IsFoundAgain F.file) }
        ensures fresh { IfOk result (λ it. IsFresh (disk_in_file F.file it)) }
        // Each fault has its own cause, by the failed calls of the file that was dropped.
        ensures refused { IfErr result (λ fault. (left : F)
            × WriteFails (F.failures file) (F.failures left) fault) }
    {
        let given = Snapshot::of(&file);
        let made = Snapshot::of(&file);
        clear(&mut file, layout)?;
        Ok(FileDisk::new(file, given, made, layout, SPACED_SECTORS))
    }
}
