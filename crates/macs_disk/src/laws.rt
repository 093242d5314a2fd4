//! Laws of the definitions, for the layers above: what a power loss may leave after one call and
//! after several, and how the promises of consecutive calls combine.

ghost use Rattle.std.specs.Prelude.{◌≡◌, ◌≢◌, ◌≤◌, ◌+◌, ◌⊎◌, ℕ, false, true, List, Result, IsErr};
ghost use Rattle.std.specs.Prelude.{IsOk};
ghost use Rattle.macs_disk.specs.States.{Image, IsImage, IsSector, IsSound, DiskState};
ghost use Rattle.macs_disk.specs.States.{state_after_write};
ghost use Rattle.macs_disk.specs.Disk.{Disk, IsDeviceCall, IsHonest, IsWork, MayLeave, Reads};
ghost use Rattle.macs_disk.specs.Disk.{Syncs};
ghost use Rattle.macs_disk.specs.Disk.{Works, Writes, now};
ghost use Rattle.macs_disk.specs.Runs.{Leaves, LeavesNothingNew};
ghost use Rattle.macs_disk.specs.Fuses.{FuseValue, disk_of_fuse};
ghost use Rattle.macs_disk.specs.MemDisks.{disk_of};
ghost use Rattle.macs_disk.specs.declared.memory.MemDisk.{MemDisk};
ghost use Rattle.macs_disk.specs.Files.{Behaves, FileState, HasNothingNew, IsCopy, IsFileImage};
ghost use Rattle.macs_disk.specs.Files.{IsSoundFile, WritesSome, file_in_doubt};
ghost use Rattle.macs_disk.specs.FileDisks.{IsFoundAs, IsLeftAsShown, IsOpened, disk_in_file};
ghost use Rattle.macs_disk.specs.FileDisks.{file_left, image_in_file};
ghost use Rattle.macs_disk.specs.FileDisks.{layout_of, state_in_file};
ghost use Rattle.macs_disk.specs.Layouts.{place, suits};
ghost use Rattle.macs_disk.specs.declared.file.FileDisk.{FileDisk};
ghost use Rattle.macs_disk.specs.declared.layout.Layout.{Layout};
ghost use Rattle.std.specs.declared.fs.File.{File as SystemFile};

use crate::disk::SectorDisk;
use crate::disk_file::DiskFile;
use std::alloc::Allocator;
use std::fs::File;

/// A property of what a power loss leaves.
pub trait Property {
    /// Holds of the images that have the property.
    ghost holds: { Image → Type 0 };
}

/// What a call counts. Before the disk is worn the clock advances by one, and a failure is counted
/// if and only if it is returned. On a worn disk the call fails, the state stays, and both counts
/// stay or both increase by one.
pub fn calls_are_counted<T, E>()
    ensures clock { (old new : Disk) (result : Result T E) → IsDeviceCall old new result
        → old.worn ≡ false → new.clock ≡ old.clock + 1 }
    ensures failed { (old new : Disk) (result : Result T E) → IsDeviceCall old new result
        → old.worn ≡ false → IsErr result → new.failures ≡ old.failures + 1 }
    ensures done { (old new : Disk) (result : Result T E) → IsDeviceCall old new result
        → IsOk result → new.failures ≡ old.failures }
    ensures worn { (old new : Disk) (result : Result T E) → IsDeviceCall old new result
        → old.worn ≡ true → IsErr result × (now new ≡ now old) }
    ensures alike { (old new : Disk) (result : Result T E) → IsDeviceCall old new result
        → old.worn ≡ true
        → ((new.clock ≡ old.clock) × (new.failures ≡ old.failures))
        ⊎ ((new.clock ≡ old.clock + 1) × (new.failures ≡ old.failures + 1)) }
{}

/// A read, successful or failed, leaves nothing new.
pub fn a_read_call_leaves_nothing_new<T, E>()
    ensures { (old new : Disk) (at : ℕ) (into : List ℕ) (result : Result T E)
        → IsDeviceCall old new result
        → Reads (now old) (now new) at into result → LeavesNothingNew old new }
{}

/// A sync, successful or failed, leaves nothing new, and a failed one changes nothing.
pub fn a_sync_call_leaves_nothing_new<T, E>()
    ensures nothing_new { (old new : Disk) (result : Result T E) → IsSound (now old)
        → IsDeviceCall old new result
        → Syncs (now old) (now new) result → LeavesNothingNew old new }
    ensures failed { (old new : DiskState) (result : Result T E) → Syncs old new result
        → IsErr result → new ≡ old }
{}

/// A write, successful or failed, leaves only images with a property, if each image that could be
/// left before it has the property, and so does each that is left after a write of some 512 octets
/// to that sector.
pub fn a_write_call_leaves<P: Property, T, E>()
    ensures { (old new : Disk) (at : ℕ) (octets : List ℕ) (result : Result T E) → IsSector octets
        → IsDeviceCall old new result → Writes (now old) (now new) at octets result
        → ((image : Image) → MayLeave old image → P.holds image)
        → ((sector : List ℕ) (image : Image) → IsSector sector
        → IsImage (state_after_write (now old) at sector) image → P.holds image)
        → Leaves old new P.holds }
{}

/// No call at all is work, and consecutive work is work.
pub fn works_on()
    ensures none { (disk : Disk) → Works disk disk }
    ensures more { (old mid new : Disk) → Works old mid → Works mid new → Works old new }
{}

/// Work without a fault, followed by more.
pub fn work_goes_on<T, E>()
    ensures { (old mid new : Disk) (result : Result T E) → Works old mid
        → mid.failures ≡ old.failures
        → IsWork mid new result → IsWork old new result }
{}

/// Before the first call.
pub fn leaves_none<P: Property>()
    ensures { (disk : Disk) → ((image : Image) → MayLeave disk image → P.holds image)
        → Leaves disk disk P.holds }
{}

/// One more call: it adds what a power loss may leave after it.
pub fn leaves_call<P: Property, T, E>()
    ensures { (old mid new : Disk) (result : Result T E) → Leaves old mid P.holds
        → IsDeviceCall mid new result
        → ((image : Image) → MayLeave new image → P.holds image) → Leaves old new P.holds }
{}

/// Consecutive runs.
pub fn leaves_more<P: Property>()
    ensures { (old mid new : Disk) → Leaves old mid P.holds → Leaves mid new P.holds
        → Leaves old new P.holds }
{}

/// Consecutive runs with two properties, each of which implies a third.
pub fn leaves_join<P: Property, Q: Property, R: Property>()
    ensures { (old mid new : Disk) → Leaves old mid P.holds → Leaves mid new Q.holds
        → ((image : Image) → P.holds image → R.holds image)
        → ((image : Image) → Q.holds image → R.holds image)
        → Leaves old new R.holds }
{}

/// A run also has any weaker property.
pub fn leaves_weaker<P: Property, Q: Property>()
    ensures { (old new : Disk) → ((image : Image) → P.holds image → Q.holds image)
        → Leaves old new P.holds → Leaves old new Q.holds }
{}

/// What a power loss may leave after a run is among what it might have left in it.
pub fn leaves_now<P: Property>()
    ensures { (old new : Disk) → Leaves old new P.holds
        → (image : Image) → MayLeave new image → P.holds image }
{}

/// An in-memory disk is an honest disk.
pub fn memory_is_honest<A: Allocator>()
    ensures { (it : MemDisk A) → IsHonest (disk_of it) }
{}

/// A fuse around an honest disk is an honest disk.
pub fn fuses_are_honest<D: SectorDisk>()
    ensures { (fuse : FuseValue D) → IsHonest (D.disk fuse.inner)
        → IsHonest (disk_of_fuse D.disk fuse) }
{}

/// A disk that was opened in a file which behaves is an honest disk, if the blocks of the device
/// suit the layout. At its first moment a power loss leaves nothing that it might not have left of
/// the file, except for zeros that extended the file.
pub fn files_that_behave_are_honest()
    ensures { (file : FileState) (least : ℕ) (layout : Layout) (disk : Disk)
        → IsOpened file least layout disk
        → suits layout file.block ≡ true → IsHonest disk }
{}

/// What a power loss may leave of a file, it may leave of the disk in the file.
pub fn a_file_leaves_what_its_disk_may()
    ensures { (layout : Layout) (file : FileState) (image : ℕ → ℕ) → suits layout file.block ≡ true
        → IsFileImage file image
        → IsImage (state_in_file layout file) (image_in_file layout image) }
{}

/// What a power loss may leave of a file while some octets of a sector are written, it may leave of
/// the disk after the write.
pub fn inside_a_write_a_file_leaves_what_its_disk_may()
    ensures { (layout : Layout) (old mid : FileState) (at : ℕ) (octets : List ℕ) (image : ℕ → ℕ)
        → suits layout old.block ≡ true → WritesSome old mid (place layout at) 512
        → IsFileImage mid image
        → IsImage (state_after_write (state_in_file layout old) at octets)
        (image_in_file layout image) }
{}

/// What a power loss may leave of a file after a failed sync, it could leave before.
pub fn a_failed_sync_of_a_file_leaves_nothing_new()
    ensures { (file : FileState) (image : ℕ → ℕ) → IsFileImage (file_in_doubt file) image
        → IsFileImage file image }
{}

/// What a power loss may leave of the file of a disk, one of whose calls may have failed, it may
/// leave of the disk.
pub fn a_file_is_left_as_its_disk<F: DiskFile>()
    ensures { (it : FileDisk F) (image : Image) → IsLeftAsShown F.file it
        → Behaves (F.file (file_left it))
        → IsImage (state_in_file (layout_of it) (F.file (file_left it))) image
        → MayLeave (disk_in_file F.file it) image }
{}

/// A disk is found again with its layout and its sectors: in its file as it was left, or as a power
/// loss left it, or after openings that failed.
pub fn files_are_found_again()
    ensures copied { (layout : Layout) (sectors : ℕ) (old new copy : FileState)
        → IsFoundAs layout sectors old
        → suits layout old.block ≡ true → HasNothingNew old new → IsSoundFile new
        → IsCopy new copy → IsFoundAs layout sectors copy }
    ensures opened { (layout again : Layout) (sectors : ℕ) (old new : FileState) (disk : Disk)
        → IsFoundAs layout sectors old → suits layout old.block ≡ true → HasNothingNew old new
        → IsSoundFile new → IsOpened new 0 again disk
        → (again ≡ layout) × (disk.sectors ≡ sectors) }
{}

/// What leaves nothing new of a file: no call, consecutive calls each of which leaves nothing new,
/// a failed sync, and a power loss.
pub fn nothing_new_of_a_file()
    ensures none { (file : FileState) → HasNothingNew file file }
    ensures more { (old mid new : FileState) → HasNothingNew old mid → HasNothingNew mid new
        → HasNothingNew old new }
    ensures doubt { (file : FileState) → HasNothingNew file (file_in_doubt file) }
    ensures lost { (old new : FileState) → IsFileImage old new.durable → new.block ≡ old.block
        → (old.is_size_durable ≡ true → (new.size ≡ old.size) × (new.is_size_durable ≡ true))
        → ((n : ℕ) → new.pending n ≡ false) → HasNothingNew old new }
{}

/// No octet of a file, and no block of a device that suits its layout, is in two sectors.
pub fn sectors_do_not_overlap()
    ensures { (layout : Layout) (block first second : ℕ) → suits layout block ≡ true
        → first ≢ second
        → (place layout first + block ≤ place layout second)
        ⊎ (place layout second + block ≤ place layout first) }
{}

/// A disk in a file of the operating system claims no honesty.
pub fn a_file_of_the_system_claims_nothing()
    ensures { (it : FileDisk SystemFile)
        → (disk_in_file ⟦<File as DiskFile>⟧.file it).honest ≡ false }
{}
