//! A disk in a file that behaves, used as an honest disk.

ghost use Rattle.std.specs.Prelude.{◌≡◌, ◌<◌, OnOk};
ghost use Rattle.macs_disk.specs.States.{Image};
ghost use Rattle.macs_disk.specs.Disk.{IsHonest, MayLeave};
ghost use Rattle.macs_disk.specs.FileDisks.{IsFoundAgain, disk_in_file, layout_of};

use super::kernel_files::open_again;
use super::{full, seen};
use macs_disk::{ClaimedFile, DeviceFault, DiskFile, FileDisk, Layout, SectorDisk};
use macs_fixtures::{DeviceBlock, MemFile, MemFolder};
use std::alloc::Allocator;
use std::process::Abort;
use std::test::Fail;

/// Writes a sector of an honest disk and syncs it: a power loss leaves what was written.
fn keep<D: SectorDisk>(disk: &mut D, at: u64, octets: &[u8; 512]) -> Result<(), DeviceFault>
    requires honest { IsHonest (D.disk disk.old) }
    requires within { at < (D.disk disk.old).sectors }
    ensures { OnOk result ((image : Image) → MayLeave (D.disk disk.new) image
        → image at ≡ octets.now) }
{
    disk.write(at, octets)?;
    disk.sync()
}

/// Writes a sector of a packed disk and syncs it, done or not. The disk is found again then, where
/// it was.
fn use_packed<F: DiskFile>(disk: &mut FileDisk<F>)
    requires packed { layout_of disk.old ≡ Layout.Packed }
    requires within { 3 < (disk_in_file F.file disk.old).sectors }
    ensures { IsFoundAgain F.file disk.old → IsFoundAgain F.file disk.new }
{
    let _written = disk.write(3, &full(7));
    let _synced = disk.sync();
}

#[test]
fn a_disk_in_a_file_that_behaves_is_honest(rt: HostRuntime) -> Result<(), Fail> {
    let file = MemFile::new(rt.alloc(), 1, DeviceBlock::Octets512, 512)?;
    let new = MemFile::new(rt.alloc(), 1, DeviceBlock::Octets512, 512)?;
    let Ok(mut old) = ClaimedFile::of(file) else {
        panic!(rt; "not claimed");
    };
    let Ok(mut disk) = FileDisk::over(&mut old, new, 4) else {
        panic!(rt; "no disk");
    };
    assert!(rt; 3 < disk.sectors());
    assert!(rt; keep(&mut disk, 3, &full(7)).is_ok());
    assert!(rt; seen(&rt, &mut disk, 3) == Ok(7));
    assert!(rt; seen(&rt, &mut disk, 2) == Ok(0));
    Ok(())
}

/// Makes a packed disk in a new file, and uses it.
fn use_beside<F: DiskFile + Drop>(rt: &impl Abort, file: F) {
    let Ok(mut disk) = FileDisk::blank(file, Layout::Packed) else {
        panic!(rt; "no new disk");
    };
    assert!(rt; 3 < disk.sectors());
    use_packed(&mut disk);
}

#[test]
fn a_disk_in_a_file_is_found_again(rt: HostRuntime) -> Result<(), Fail> {
    let folder = MemFolder::new(rt.alloc(), 129, DeviceBlock::Octets512, 4_096)?;
    use_beside(&rt, folder.make_beside()?);
    folder.rename();
    let mut again = open_again(&rt, &folder);
    assert!(rt; again.sectors() == 1_028);
    assert!(rt; seen(&rt, &mut again, 3) == Ok(7));
    Ok(())
}
