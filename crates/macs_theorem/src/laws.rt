//! The theorem.

ghost use Rattle.macs_disk.specs.FileDisks.{disk_in_file};
ghost use Rattle.macs_theorem.specs.Examples.{DeedsHappen};
ghost use Rattle.macs_theorem.specs.Files.{BlankFilesAreNew, ReopeningsAreEnds};
ghost use Rattle.macs_theorem.specs.Older.{OlderIsExpected};
ghost use Rattle.macs_theorem.specs.Page.{AllIsExpected, NoNumberTwice};

use macs_disk::{DiskFile, FileDisk, SectorDisk};
use macs_headline::laws;

/// What is promised of an endpoint on an honest disk, for all programs, and no matter where they
/// end.
pub fn page<D: SectorDisk>()
    // On a disk that was new: each frame is protected under a key that was to be installed and a
    // packet number, and no two have the same key and number.
    ensures nonces { NoNumberTwice D.disk }
    // On a disk that was new, an observer expects all that is seen.
    ensures seen { AllIsExpected D.disk }
    // The same for an observer who knows what an older edition did with the disk.
    ensures older { OlderIsExpected D.disk }
    // The deeds in the laws of `macs_headline` are events.
    ensures deeds { DeedsHappen D.disk }
{}

/// What `page` promises, for a disk in a file.
pub fn page_of_files<F: DiskFile>()
    // A blank one is new, if its layout suits the blocks of the device.
    ensures new { BlankFilesAreNew F.file }
    // Opening its file again is an event, if the file behaves.
    ensures reopened { ReopeningsAreEnds F.file }
    ensures nonces { NoNumberTwice (disk_in_file F.file) }
    ensures seen { AllIsExpected (disk_in_file F.file) }
{
    laws::files::<F>();
    page::<FileDisk<F>>();
}
