//! A copy in memory of the disk in a file, which is read and not changed.

ghost use Rattle.std.specs.Prelude.{◌≡◌, ◌≢◌, ◌<◌, ◌%◌, IfErr, IfOk, IsErrOf, OnOk};
ghost use Rattle.std.specs.declared.io.ErrorKind.{ErrorKind};
ghost use Rattle.macs_disk.specs.Disk.{now};
ghost use Rattle.macs_disk.specs.DiskCopies.{IsCopied, IsDiskCopy};
ghost use Rattle.macs_disk.specs.FileDisks.{image_in_file};
ghost use Rattle.macs_disk.specs.FileFailures.{MoveFails, Reads};
ghost use Rattle.macs_disk.specs.Files.{Behaves};
ghost use Rattle.macs_disk.specs.Layouts.{layout_in, spaced_sectors};
ghost use Rattle.macs_disk.specs.MemDisks.{disk_of};
ghost use Rattle.macs_disk.specs.States.{state_after_write};

use crate::claimed_file::measure;
use crate::disk::SectorDisk;
use crate::disk_file::DiskFile;
use crate::file_calls::read_sector;
use crate::file_fault::FileFault;
use crate::layout::{Layout, SECTOR_OCTETS, SPACED_SECTORS};
use crate::memory::MemDisk;
use crate::settled_file::find_layout;
use std::alloc::Global;

/// A copy in memory of the first 1,028 sectors of a disk, and the layout of the disk in its file.
#[derive(Drop)]
pub struct DiskCopy {
    pub layout: Layout,
    pub disk: MemDisk,
}

/// Copies a sector of the disk in a file.
fn copy_sector<F: DiskFile>(
    file: &mut F,
    layout: Layout,
    at: u64,
    copy: &mut MemDisk,
) -> Result<(), FileFault>
    requires within { at < spaced_sectors }
    requires room { (disk_of copy.old).sectors ≡ spaced_sectors }
    ensures steady { (F.file file.new).behaves ≡ (F.file file.old).behaves }
    ensures same { Behaves (F.file file.old) → F.file file.new ≡ F.file file.old }
    ensures room { (disk_of copy.new).sectors ≡ spaced_sectors }
    ensures copied { Behaves (F.file file.old)
        → OnOk result (now (disk_of copy.new)
        ≡ state_after_write (now (disk_of copy.old))
        at (image_in_file layout (F.file file.old).seen at)) }
    ensures failed { IfErr result (λ fault. fault ≢ FileFault.Length) }
    ensures cause { IfErr result (λ fault. fault ≡ FileFault.Device → (kind : ErrorKind)
        × MoveFails (F.failures file.old) (F.failures file.new) Reads kind) }
{
    let mut sector = [0; 512];
    let Ok(()) = read_sector(file, layout, at, &mut sector) else {
        return Err(FileFault::Device);
    };
    match copy.write(at, &sector) {
        Ok(()) => Ok(()),
        Err(_) => Err(FileFault::Memory), // A write in memory fails only for that.
    }
}

/// Copies the sectors of the disk in a file, one after another.
fn copy_sectors<F: DiskFile>(
    file: &mut F,
    layout: Layout,
    copy: &mut MemDisk,
) -> Result<(), FileFault>
    requires { (disk_of copy.old).sectors ≡ spaced_sectors }
    ensures steady { (F.file file.new).behaves ≡ (F.file file.old).behaves }
    ensures same { Behaves (F.file file.old) → F.file file.new ≡ F.file file.old }
    ensures copied { Behaves (F.file file.old)
        → layout ≡ layout_in (F.file file.old)
        → OnOk result (IsDiskCopy (F.file file.old) (disk_of copy.new)) }
    ensures failed { IfErr result (λ fault. fault ≢ FileFault.Length) }
{
    for at in 0..SPACED_SECTORS {
        copy_sector(file, layout, at, copy)?;
    }
    Ok(())
}

/// A disk of 1,028 sectors of zeros in memory.
fn blank(alloc: Global) -> Result<MemDisk, FileFault>
    ensures room { IfOk result (λ copy. (disk_of copy).sectors ≡ spaced_sectors) }
    ensures failed { IfErr result (λ fault. fault ≢ FileFault.Length) }
{
    match MemDisk::new(alloc, SPACED_SECTORS) {
        Ok(copy) => Ok(copy),
        Err(_) => Err(FileFault::Memory), // 1,028 sectors are allowed.
    }
}

/// Copies the disk in a file of `octets` octets, which has at least 1,028 sectors.
fn copy_all<F: DiskFile>(alloc: Global, file: &mut F, octets: u64) -> Result<DiskCopy, FileFault>
    ensures same { Behaves (F.file file.old) → F.file file.new ≡ F.file file.old }
    ensures copied { Behaves (F.file file.old)
        → octets ≡ (F.file file.old).size
        → IfOk result (λ copy. IsDiskCopy (F.file file.old) (disk_of copy.disk)) }
    ensures laid { Behaves (F.file file.old)
        → octets ≡ (F.file file.old).size
        → IfOk result (λ copy. copy.layout ≡ layout_in (F.file file.old)) }
    ensures failed { IfErr result (λ fault. fault ≢ FileFault.Length) }
{
    let layout = find_layout(file, octets)?;
    let mut disk = blank(alloc)?;
    copy_sectors(file, layout, &mut disk)?;
    Ok(DiskCopy { layout, disk })
}

/// Copies the disk in a file that is open for reading; `None` if it has fewer than 1,028 sectors of
/// 512 octets. The file is not changed. Fails with `Open` if it cannot be measured, `Length` if it
/// is not whole sectors, `Device` if a sector cannot be read, and `Memory`.
pub fn copy_disk<F: DiskFile>(alloc: Global, file: &mut F) -> Result<Option<DiskCopy>, FileFault>
    ensures same { Behaves (F.file file.old) → F.file file.new ≡ F.file file.old }
    ensures copied { Behaves (F.file file.old) → IfOk result (IsCopied (F.file file.old)) }
    ensures length { IsErrOf result FileFault.Length → Behaves (F.file file.old)
        → (F.file file.old).size % 512 ≢ 0 }
{
    let octets = measure(file)?;
    if octets / SECTOR_OCTETS < SPACED_SECTORS {
        return Ok(None);
    }
    let copy = copy_all(alloc, file, octets)?;
    Ok(Some(copy))
}
