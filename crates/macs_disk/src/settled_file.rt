//! A copy of a file that is being prepared for a disk.

ghost use Rattle.std.specs.Prelude.{◌≡◌, ◌≢◌, ◌<◌, ◌≤◌, ◌⊎◌, ◌*◌, ◌^◌, IfErr, IfOk, OnErr, OnOk};
ghost use Rattle.macs_disk.specs.FileFailures.{ExtendFails, MoveFails, OnlyInterrupted, Reads};
ghost use Rattle.macs_disk.specs.FileFailures.{WriteFails};
ghost use Rattle.std.specs.declared.io.ErrorKind.{ErrorKind};
ghost use Rattle.macs_disk.specs.Files.{Behaves, IsSure};
ghost use Rattle.macs_disk.specs.FileDisks.{IsExtent, IsStill, file_lengthened};
ghost use Rattle.macs_disk.specs.Layouts.{layout_in, place, sectors_in};

use crate::disk::DeviceFault;
use crate::disk_file::DiskFile;
use crate::file::FileDisk;
use crate::file_calls::{read_sector, write_zeros};
use crate::file_fault::FileFault;
use crate::layout::{Layout, MARK_PLACE, SECTOR_OCTETS, SPACED_SECTORS, is_mark};
use std::fs::File;
use std::snapshot::Snapshot;

/// A number of sectors too large for a file: the system's lengths are below 2^63 octets.
const TOO_MANY_SECTORS: u64 = 1 << 54;

/// A copy of a file, which has whole sectors and shows what the device has. Nothing of it is
/// pending.
#[derive(Drop)]
pub struct SettledFile<F = File> {
    pub(crate) file: F,
    /// The original file, as it was claimed. It takes no memory: only proofs read it.
    given: Snapshot<F>,
    /// The copy as it was made. Only proofs read it.
    made: Snapshot<F>,
    octets: u64,
}

/// The layout of a disk's sectors in its file, and how many there are.
#[derive(Drop)]
struct Extent {
    layout: Layout,
    sectors: u64,
}

/// Finds the layout of a settled file of `octets` octets.
pub(crate) fn find_layout<F: DiskFile>(file: &mut F, octets: u64) -> Result<Layout, DeviceFault>
    ensures steady { (F.file file.new).behaves ≡ (F.file file.old).behaves }
    ensures same { Behaves (F.file file.old) → F.file file.new ≡ F.file file.old }
    ensures found { Behaves (F.file file.old)
        → octets ≡ (F.file file.old).size
        → IfOk result (λ layout. layout ≡ layout_in (F.file file.old)) }
    ensures room { OnOk result (result ≡ Ok Layout.Spaced → place Layout.Spaced 1028 ≤ octets) }
    ensures quiet { OnOk result (OnlyInterrupted (F.failures file.old) (F.failures file.new)) }
    ensures cause { OnErr result
        ((kind : ErrorKind) × MoveFails (F.failures file.old) (F.failures file.new) Reads kind) }
{
    if octets < MARK_PLACE + SECTOR_OCTETS {
        return Ok(Layout::Packed);
    }
    let mut sector = [0; 512];
    let Ok(()) = read_sector(file, Layout::Spaced, SPACED_SECTORS, &mut sector) else {
        return Err(DeviceFault);
    };
    if is_mark(&sector) {
        return Ok(Layout::Spaced);
    }
    Ok(Layout::Packed)
}

/// Extends a packed file of `octets` octets to `sectors` sectors, with zeros, durably.
fn lengthen<F: DiskFile>(file: &mut F, octets: u64, sectors: u64) -> Result<(), FileFault>
    requires { octets ≤ 512 * sectors }
    ensures steady { (F.file file.new).behaves ≡ (F.file file.old).behaves }
    ensures fits { OnOk result (512 * sectors < 2 ^ 64) }
    ensures most { OnOk result (sectors < 2 ^ 54) }
    ensures long { Behaves (F.file file.old) → IsSure (F.file file.old)
        → octets ≡ (F.file file.old).size
        → OnOk result (F.file file.new ≡ file_lengthened (F.file file.old) (512 * sectors)) }
    ensures err { IfErr result (λ fault. fault ≢ FileFault.Length) }
    ensures cause { IfErr result (WriteFails (F.failures file.old) (F.failures file.new)) }
{
    if sectors >= TOO_MANY_SECTORS {
        return Err(FileFault::Open);
    }
    write_zeros(file, octets, sectors * SECTOR_OCTETS)?;
    file.sync()?;
    Ok(())
}

/// Finds the layout of a settled file of `octets` octets, and ensures that it has at least `least`
/// sectors.
fn prepare<F: DiskFile>(file: &mut F, octets: u64, least: u64) -> Result<Extent, FileFault>
    ensures steady { (F.file file.new).behaves ≡ (F.file file.old).behaves }
    ensures fits { IfOk result (λ extent. place extent.layout extent.sectors < 2 ^ 64) }
    ensures least { IfOk result (λ extent. least ≤ extent.sectors) }
    ensures most { IfOk result
        (λ extent. (least < 2 ^ 54) ⊎ (extent.sectors ≡ sectors_in extent.layout octets)) }
    ensures known { Behaves (F.file file.old) → IsStill (F.file file.old)
        → octets ≡ (F.file file.old).size
        → IfOk result (λ extent.
        IsExtent (F.file file.old) (F.file file.new) least extent.layout extent.sectors) }
    ensures spaced { IfOk result (λ extent. extent.layout ≡ Layout.Spaced → extent.sectors ≡ 1028) }
    ensures err { IfErr result (λ fault. fault ≢ FileFault.Length) }
    ensures cause { IfErr result (ExtendFails (F.failures file.old) (F.failures file.new)) }
{
    let layout = find_layout(file, octets)?;
    let sectors = layout.sectors_in(octets);
    if sectors >= least {
        return Ok(Extent { layout, sectors });
    }
    if layout == Layout::Spaced {
        return Err(FileFault::Open);
    }
    lengthen(file, octets, least)?;
    Ok(Extent {
        layout,
        sectors: least,
    })
}

impl<F: DiskFile> SettledFile<F> {
    ghost use Rattle.macs_disk.specs.FileDisks.{IsFoundAgain, IsFresh, IsLeftAsShown};
    ghost use Rattle.macs_disk.specs.FileDisks.{IsOpened, IsSettled};
    ghost use Rattle.macs_disk.specs.FileDisks.{disk_in_file, file_before, file_beside};
    ghost use Rattle.macs_disk.specs.FileDisks.{file_given, file_made, layout_of, octets_of};

    /// A copy of a file, of `octets` octets.
    pub(crate) fn new(file: F, given: Snapshot<F>, made: Snapshot<F>, octets: u64) -> Self
        ensures file { result.file ≡ file }
        ensures given { file_before result ≡ given.value }
        ensures made { file_beside result ≡ made.value }
        ensures octets { octets_of result ≡ octets }
    {
        SettledFile {
            file,
            given,
            made,
            octets,
        }
    }

    /// A disk of at least `least` sectors in the copy. A copy with fewer is extended with zeros,
    /// which are synced, unless it is spaced, which is `Open`. A longer one keeps its length.
    pub fn into_disk(mut self, least: u64) -> Result<FileDisk<F>, FileFault>
        ensures least { IfOk result (λ it. least ≤ (disk_in_file F.file it).sectors) }
        ensures given { IfOk result (λ it. file_given it ≡ file_before self) }
        ensures made { IfOk result (λ it. file_made it ≡ file_beside self) }
        ensures known { Behaves (F.file self.file) → IsSettled F.file self → IfOk result (λ it.
            IsOpened (F.file (file_before self)) least (layout_of it) (disk_in_file F.file it)) }
        ensures spaced { IfOk result (λ it. layout_of it ≡ Layout.Spaced
            → (disk_in_file F.file it).sectors ≡ 1028) }
        ensures left { IfOk result (IsLeftAsShown F.file) }
        ensures again { Behaves (F.file self.file) → IsSettled F.file self
            → IfOk result (IsFoundAgain F.file) }
        ensures fresh { IfOk result (λ it. IsFresh (disk_in_file F.file it)) }
        ensures err { IfErr result (λ fault. fault ≢ FileFault.Length) }
        // Each fault has its own cause, by the failed calls of the file that was dropped.
        ensures refused { IfErr result (λ fault. (left : F)
            × ExtendFails (F.failures self.file) (F.failures left) fault) }
    {
        let octets = self.octets;
        let extent = prepare(&mut self.file, octets, least)?;
        Ok(FileDisk::new(
            self.file,
            self.given,
            self.made,
            extent.layout,
            extent.sectors,
        ))
    }
}
