//! A copy in memory of the disk in a file.

ghost use Rattle.std.specs.Prelude.{IfErr, IfOk, Some};
ghost use Rattle.macs_disk.specs.DiskCopies.{IsCopied};
ghost use Rattle.macs_disk.specs.Files.{Behaves};
ghost use Rattle.macs_offline.specs.Copying.{CopyFails};

use macs_cli::Failure;
use macs_disk::{DiskCopy, DiskFile, copy_disk};
use macs_journal::JournalFault;
use std::alloc::Global;

/// A copy in memory of the disk in a file that is open for reading, of 1,028 sectors. The file is
/// not changed. Fails with `Disk` and the first fault: `File` if the file cannot be measured,
/// `Length` if it is not whole sectors, `Journal` with `TooSmall` if there are too few, and with
/// `Disk` if a sector cannot be read; or with `Memory`.
pub fn copy_of<F: DiskFile>(alloc: Global, file: &mut F) -> Result<DiskCopy, Failure>
    ensures copied { Behaves (F.file file.old)
        → IfOk result (λ copy. IsCopied (F.file file.old) (Some copy)) }
    ensures failed { IfErr result (CopyFails (F.file file.old)) }
{
    let copied = copy_disk(alloc, file)?;
    match copied {
        Some(copy) => Ok(copy),
        None => Err(Failure::from(JournalFault::TooSmall)),
    }
}
