//! A file that is claimed, and how it is copied for a disk.

ghost use Rattle.std.specs.Prelude.{◌≡◌, ◌≢◌, ◌<◌, ◌≤◌, ◌+◌, ◌*◌, ◌/◌, ◌%◌, ◌^◌, IfErr, IfOk};
ghost use Rattle.std.specs.Prelude.{IsErrOf, OnOk};
ghost use Rattle.macs_disk.specs.FileFailures.{CopyFails, MeasureFails, OnlyInterrupted};
ghost use Rattle.macs_disk.specs.FileDisks.{HasFront};
ghost use Rattle.macs_disk.specs.Files.{Behaves, IsMadeBeside, file_claimed};

use crate::disk_file::DiskFile;
use crate::file_calls::write_all;
use crate::file_fault::FileFault;
use crate::layout::SECTOR_OCTETS;
use crate::settled_file::SettledFile;
use std::fs::File;
use std::io;
use std::snapshot::Snapshot;

/// How many octets are copied at a time.
const PART: usize = 16_384;

/// A file that this program has claimed, of whole sectors. It is read and not changed: the disk is
/// in a copy of it.
///
/// It may be examined before it is copied. After a failed sync it may show octets that the device
/// does not have.
#[derive(Drop)]
pub struct ClaimedFile<F = File> {
    /// The file. It must only be read.
    pub file: F,
    octets: u64,
}

/// How many octets a file has, if they are whole sectors.
pub(crate) fn measure<F: DiskFile>(file: &mut F) -> Result<u64, FileFault>
    ensures steady { (F.file file.new).behaves ≡ (F.file file.old).behaves }
    ensures same { Behaves (F.file file.old) → F.file file.new ≡ F.file file.old }
    ensures whole { IfOk result (λ octets. octets % 512 ≡ 0) }
    ensures size { Behaves (F.file file.old)
        → IfOk result (λ octets. octets ≡ (F.file file.old).size) }
    ensures length { IsErrOf result FileFault.Length → Behaves (F.file file.old)
        → (F.file file.old).size % 512 ≢ 0 }
    ensures cause { IfErr result (MeasureFails (F.failures file.old) (F.failures file.new)) }
{
    let octets = file.size()?;
    if octets % SECTOR_OCTETS != 0 {
        return Err(FileFault::Length);
    }
    Ok(octets)
}

/// Claims a file, and then measures it.
fn claim_and_measure<F: DiskFile>(file: &mut F) -> Result<u64, FileFault>
    ensures steady { (F.file file.new).behaves ≡ (F.file file.old).behaves }
    ensures claimed { Behaves (F.file file.old)
        → OnOk result (F.file file.new ≡ file_claimed (F.file file.old)) }
    ensures whole { IfOk result (λ octets. octets % 512 ≡ 0) }
    ensures size { Behaves (F.file file.old)
        → IfOk result (λ octets. octets ≡ (F.file file.old).size) }
    ensures length { IsErrOf result FileFault.Length → Behaves (F.file file.old)
        → (F.file file.old).size % 512 ≢ 0 }
    ensures cause { IfErr result (MeasureFails (F.failures file.old) (F.failures file.new)) }
{
    file.claim()?;
    measure(file)
}

/// Copies some of the octets from octet `at` on, at most `most`, and returns how many: none if the
/// read was interrupted.
fn copy_some<F: DiskFile>(from: &mut F, into: &mut F, at: u64, most: u64) -> Result<u64, FileFault>
    requires { at + most < 2 ^ 64 }
    ensures few { IfOk result (λ count. count ≤ most) }
    ensures steady { (F.file into.new).behaves ≡ (F.file into.old).behaves }
    ensures steady_from { (F.file from.new).behaves ≡ (F.file from.old).behaves }
    ensures same { Behaves (F.file from.old) → F.file from.new ≡ F.file from.old }
    ensures front { Behaves (F.file from.old) → HasFront (F.file from.old) at (F.file into.old)
        → IfOk result (λ count.
        HasFront (F.file from.old) (at + count) (F.file into.new)) }
    ensures err { IfErr result (λ fault. fault ≢ FileFault.Length) }
    ensures quiet { OnOk result (OnlyInterrupted (F.failures from.old) (F.failures from.new)
        × OnlyInterrupted (F.failures into.old) (F.failures into.new)) }
    ensures cause { IfErr result (CopyFails (F.failures from.old) (F.failures from.new)
        (F.failures into.old) (F.failures into.new)) }
{
    let mut octets = [0; PART];
    let room = most.min(PART as u64) as usize;
    let part = &mut octets[..room];
    match from.read_at(at, part) {
        Ok(0) => Err(FileFault::Device),
        Ok(count) => {
            write_all(into, at, &part[..count])?;
            Ok(count as u64)
        }
        Err(error) if error.kind() == io::ErrorKind::Interrupted => Ok(0),
        Err(_) => Err(FileFault::Device),
    }
}

/// Copies the first `octets` octets of a file into an empty one. Each is read once.
fn copy_octets<F: DiskFile>(from: &mut F, into: &mut F, octets: u64) -> Result<(), FileFault>
    ensures steady { (F.file into.new).behaves ≡ (F.file into.old).behaves }
    ensures same { Behaves (F.file from.old) → F.file from.new ≡ F.file from.old }
    ensures front { Behaves (F.file from.old) → IsMadeBeside (F.file from.old) (F.file into.old)
        → OnOk result (HasFront (F.file from.old) octets (F.file into.new)) }
    ensures err { IfErr result (λ fault. fault ≢ FileFault.Length) }
    ensures quiet { OnOk result (OnlyInterrupted (F.failures into.old) (F.failures into.new)) }
    ensures cause { IfErr result (CopyFails (F.failures from.old) (F.failures from.new)
        (F.failures into.old) (F.failures into.new)) }
{
    let mut done = 0;
    for _ in 0..u64::MAX {
        if done >= octets {
            return Ok(());
        }
        done += copy_some(from, into, done, octets - done)?;
    }
    Err(FileFault::Device)
}

impl<F: DiskFile> ClaimedFile<F> {
    ghost use Rattle.macs_disk.specs.FileDisks.{IsMeasured, IsSettled, file_before};
    ghost use Rattle.macs_disk.specs.FileDisks.{file_beside, octets_measured};

    /// Claims a file that is open for reading and writing, and measures it, in this order. Fails
    /// with the fault of the first of these that fails, or with `Length` if it is not whole
    /// sectors. No octet is changed.
    pub fn of(mut file: F) -> Result<Self, FileFault>
        ensures steady { IfOk result (λ it.
            (F.file it.file).behaves ≡ (F.file file).behaves) }
        ensures claimed { Behaves (F.file file)
            → IfOk result (λ it. F.file it.file ≡ file_claimed (F.file file)) }
        ensures measured { Behaves (F.file file) → IfOk result (IsMeasured F.file) }
        ensures length { IsErrOf result FileFault.Length → Behaves (F.file file)
            → (F.file file).size % 512 ≢ 0 }
        ensures refused { IfErr result (λ fault. (left : F)
            × MeasureFails (F.failures file) (F.failures left) fault) }
    {
        let octets = claim_and_measure(&mut file)?;
        Ok(ClaimedFile { file, octets })
    }

    /// How many sectors of 512 octets the file has.
    pub fn sectors(&self) -> u64
        ensures count { result ≡ octets_measured self.now / 512 }
        ensures fits { 512 * result < 2 ^ 64 }
    {
        self.octets / SECTOR_OCTETS
    }

    /// Copies the file into a newly made one, and syncs that. Fails with `Device` if this file
    /// cannot be read, or the copy cannot be synced; with `Open`, or `Memory`, if the copy cannot
    /// be written. This file is unchanged, and stays claimed.
    pub fn copy_into(&mut self, mut into: F) -> Result<SettledFile<F>, FileFault>
        ensures given { IfOk result (λ it. file_before it ≡ self.old.file) }
        ensures made { IfOk result (λ it. file_beside it ≡ into) }
        ensures settled { Behaves (F.file self.old.file) → IsMeasured F.file self.old
            → IsMadeBeside (F.file self.old.file) (F.file into) → IfOk result (IsSettled F.file) }
        ensures steady { IfOk result (λ it. (F.file it.file).behaves ≡ (F.file into).behaves) }
        ensures err { IfErr result (λ fault. fault ≢ FileFault.Length) }
        // Each fault has its own cause, by the calls of both files that failed.
        ensures refused { IfErr result (λ fault. (left : F)
            × CopyFails (F.failures self.old.file) (F.failures self.new.file)
            (F.failures into) (F.failures left) fault) }
    {
        let given = Snapshot::of(&self.file);
        let made = Snapshot::of(&into);
        copy_octets(&mut self.file, &mut into, self.octets)?;
        let Ok(()) = into.sync() else {
            return Err(FileFault::Device);
        };
        Ok(SettledFile::new(into, given, made, self.octets))
    }
}
