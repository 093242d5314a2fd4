//! How an empty file becomes that of a new disk: its mark and zeros are written.

ghost use Rattle.std.specs.Prelude.{◌≡◌, ◌≢◌, IfErr, OnOk};
ghost use Rattle.macs_disk.specs.FileFailures.{OnlyInterrupted, WriteFails};
ghost use Rattle.macs_disk.specs.Files.{Behaves, IsEmpty};
ghost use Rattle.macs_disk.specs.FileDisks.{IsCleared, IsMarkedAs};

use crate::disk_file::DiskFile;
use crate::file_calls::{write_all, write_zeros};
use crate::file_fault::FileFault;
use crate::layout::{BLOCK_OCTETS, Layout, MARK_PLACE, SECTOR_OCTETS, SPACED_SECTORS, spaced_mark};

/// Writes the block with the mark of a spaced file.
fn put_mark<F: DiskFile>(file: &mut F) -> Result<(), FileFault>
    ensures steady { (F.file file.new).behaves ≡ (F.file file.old).behaves }
    ensures marked { IsEmpty (F.file file.old)
        → OnOk result (IsMarkedAs (F.file file.old) (F.file file.new) Layout.Spaced) }
    ensures err { IfErr result (λ fault. fault ≢ FileFault.Length) }
    ensures quiet { OnOk result (OnlyInterrupted (F.failures file.old) (F.failures file.new)) }
    ensures cause { IfErr result (WriteFails (F.failures file.old) (F.failures file.new)) }
{
    write_all(file, MARK_PLACE, &spaced_mark())?;
    write_zeros(file, MARK_PLACE + SECTOR_OCTETS, MARK_PLACE + BLOCK_OCTETS)?;
    Ok(())
}

/// Marks an empty file as having this layout. A packed file has no mark.
fn mark_as<F: DiskFile>(file: &mut F, layout: Layout) -> Result<(), FileFault>
    ensures steady { (F.file file.new).behaves ≡ (F.file file.old).behaves }
    ensures marked { IsEmpty (F.file file.old)
        → OnOk result (IsMarkedAs (F.file file.old) (F.file file.new) layout) }
    ensures err { IfErr result (λ fault. fault ≢ FileFault.Length) }
    ensures quiet { OnOk result (OnlyInterrupted (F.failures file.old) (F.failures file.new)) }
    ensures cause { IfErr result (WriteFails (F.failures file.old) (F.failures file.new)) }
{
    match layout {
        Layout::Packed => Ok(()),
        Layout::Spaced => put_mark(file),
    }
}

/// Writes the mark of a layout into an empty file, and zeros for the 1,028 sectors, durably.
pub(crate) fn clear<F: DiskFile>(file: &mut F, layout: Layout) -> Result<(), FileFault>
    ensures steady { (F.file file.new).behaves ≡ (F.file file.old).behaves }
    ensures cleared { IsEmpty (F.file file.old)
        → OnOk result (IsCleared (F.file file.old) (F.file file.new) layout) }
    ensures err { IfErr result (λ fault. fault ≢ FileFault.Length) }
    ensures cause { IfErr result (WriteFails (F.failures file.old) (F.failures file.new)) }
{
    mark_as(file, layout)?;
    write_zeros(file, 0, layout.place(SPACED_SECTORS))?;
    file.sync()?;
    Ok(())
}
