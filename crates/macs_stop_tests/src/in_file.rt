//! Disks in files in memory: what is promised of disks in files that behave, with nothing assumed
//! of the file.

ghost use Rattle.std.specs.Prelude.{◌≡◌, [], true, IfSome};
ghost use Rattle.macs_disk.specs.Disk.{IsHonest};
ghost use Rattle.macs_disk.specs.FileDisks.{IsBlank, IsFoundAgain, IsLeftAsShown, IsOpened};
ghost use Rattle.macs_disk.specs.FileDisks.{disk_in_file, file_left};
ghost use Rattle.macs_disk.specs.Files.{FileState, HasNothingNew};
ghost use Rattle.macs_disk.specs.Layouts.{suits};
ghost use Rattle.macs_disk.specs.declared.file.FileDisk.{FileDisk as DiskInFile};
ghost use Rattle.macs_disk.specs.declared.layout.Layout.{Layout as LayoutInFile};
ghost use Rattle.macs_fixtures.specs.MemFiles.{file_of, octets_in};
ghost use Rattle.macs_fixtures.specs.declared.file.MemFile.{MemFile as FileInMemory};
ghost use Rattle.macs_headline.specs.Binding.{IsNewDisk};
ghost use Rattle.macs_theorem.specs.Events.{Ends, Happens, HoldsDisk};
ghost use Rattle.macs_theorem.specs.Page.{AllIsExpected, NoNumberTwice};
ghost use Rattle.macs_theorem.specs.Programs.{HearsExpected, holds};
ghost use Rattle.macs_theorem.specs.Shown.{shown_by};

use macs_disk::{FileDisk, Layout};
use macs_fixtures::{DeviceBlock, MemFile};
use macs_theorem::{Held, Program, laws, run_powered};
use std::alloc::{Allocator, Global};

/// How many octets a call of a file moves at most.
const MOST: usize = 4_096;

/// How many pages a disk with this layout takes up.
fn pages_for(layout: Layout) -> u16 {
    match layout {
        Layout::Packed => 129,
        Layout::Spaced => 1_029,
    }
}

/// The blocks of a device that suit this layout.
fn block_for(layout: Layout) -> DeviceBlock
    ensures { suits layout (octets_in result) ≡ true }
{
    match layout {
        Layout::Packed => DeviceBlock::Octets512,
        Layout::Spaced => DeviceBlock::Octets4096,
    }
}

/// A new disk with this layout in a new file in memory, on a device whose blocks suit the layout.
/// `None` if there is no memory for it, or the file cannot be made.
pub fn new_disk(alloc: Global, layout: Layout) -> Option<FileDisk<MemFile>>
    ensures new { IfSome result (λ disk. IsNewDisk (disk_in_file file_of disk)) }
    ensures left { IfSome result (IsLeftAsShown file_of) }
    ensures again { IfSome result (IsFoundAgain file_of) }
{
    let Ok(file) = MemFile::new(alloc, pages_for(layout), block_for(layout), MOST) else {
        return None;
    };
    laws::page_of_files::<MemFile>();
    let Ok(disk) = FileDisk::blank(file, layout) else {
        return None;
    };
    Some(disk)
}

/// Runs a program on a new disk in a file in memory, for at most this many turns. An observer
/// expects all that it hears.
pub fn run_in_file<P: Program>(
    alloc: Global,
    layout: Layout,
    program: &mut P,
    turns: u64,
) -> Option<Held<FileDisk<MemFile>>>
    requires fresh { P.keeps program.old [] }
    ensures { IfSome result (λ held. (disk : DiskInFile _)
        × IsNewDisk (disk_in_file file_of disk)
        × HearsExpected (disk_in_file file_of) disk (P.keeps program.new) (holds held)) }
{
    let disk = new_disk(alloc, layout)?;
    Some(run_powered(disk, program, turns))
}

/// What is promised of disks in files that behave, of those in files in memory.
pub fn page_of_memory_files<A: Allocator>()
    // A blank one is new, if its layout suits the blocks of the device.
    ensures new { (old new : FileState) (layout : LayoutInFile) (disk : DiskInFile (FileInMemory A))
        → IsBlank old new layout (disk_in_file file_of disk) → suits layout old.block ≡ true
        → IsNewDisk (disk_in_file file_of disk) }
    // The disk is dropped, even after calls of it failed, and its file is opened again: as it was
    // left, or as a power loss left it (`MemFile::crash`). That is an event of a program that ends.
    ensures reopened { (old new : DiskInFile (FileInMemory A)) (left : FileInMemory A)
        (again : LayoutInFile) → IsLeftAsShown file_of old → IsFoundAgain file_of old
        → IsHonest (disk_in_file file_of old)
        → HasNothingNew (file_of (file_left old)) (file_of left)
        → IsOpened (file_of left) 0 again (disk_in_file file_of new)
        → Happens (disk_in_file file_of) shown_by (HoldsDisk old) Ends (HoldsDisk new) }
    ensures nonces { NoNumberTwice (disk_in_file (file_of {A = A})) }
    ensures seen { AllIsExpected (disk_in_file (file_of {A = A})) }
{
    laws::page_of_files::<MemFile<A>>();
}
