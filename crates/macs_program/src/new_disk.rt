//! How the file of a new endpoint is made.

ghost use Rattle.std.specs.IoError.{error_kind};
ghost use Rattle.std.specs.Prelude.{◌≡◌, ◌≢◌, ◌⊎◌, ◌<◌, ◌*◌, ◌^◌, None, Some, Ok, Err, IfErr, IfOk};
ghost use Rattle.std.specs.Prelude.{IsErrOf, OnOk};
ghost use Rattle.std.specs.declared.io.ErrorKind.TheVariants.{OutOfMemory};
ghost use Rattle.macs_disk.specs.Files.{Behaves};
ghost use Rattle.macs_disk.specs.declared.file_fault.FileFault.{FileFault};
ghost use Rattle.macs_journal.specs.declared.fault.JournalFault.TheVariants as journal;
ghost use Rattle.macs_cli.specs.Failing.{failure_of_file};
ghost use Rattle.macs_program.specs.NewDisks.{BlankFails, EndpointFails, FormatFails, Formats};
ghost use Rattle.macs_program.specs.NewDisks.{IsFree, MakesEndpoint, Permits, refusal_of};
ghost use Rattle.macs_cli.specs.declared.failure.DiskFault.{DiskFault};
ghost use Rattle.macs_cli.specs.declared.failure.DiskFault.TheVariants as disk;

use macs_cli::{DiskFault, Failure};
use macs_config::Identity;
use macs_disk::{ClaimedFile, DiskFile, FileDisk, FileFault, Layout, Renewal, make_file};
use macs_journal::{Contents, JournalFault, contents_of};
use macs_offline::{KeyFault, KeyList, failure_of, is_printed_to};
use std::alloc::Global;
use std::fs::OpenFile;
use std::io;
use std::rt::Files;

/// How the file of a new endpoint is made.
#[derive(Clone, Copy)]
pub struct NewFile {
    /// How the sectors are laid out in it.
    pub layout: Layout,
    /// Whether anything else that it holds may be overwritten.
    pub is_over: bool,
}

/// Opens or creates the file at a path for reading and writing. Fails if it is not a regular file,
/// since nothing is known about other data on a device, or if standard output goes there.
fn open_file<T: Files>(rt: &T, path: &str) -> io::Result<T::File> {
    if is_printed_to(rt, path) {
        return Err(io::Error::from(io::ErrorKind::AlreadyExists));
    }
    let file = make_file(rt, path)?;
    if file.metadata()?.is_file() {
        return Ok(file);
    }
    Err(io::Error::from(io::ErrorKind::InvalidInput))
}

/// Why a file with these contents is not overwritten, if it is not.
fn refusal_of(contents: Contents, is_over: bool) -> Option<DiskFault>
    ensures { result ≡ refusal_of contents is_over }
{
    match contents {
        Contents::Blank => None,
        Contents::Endpoint => Some(DiskFault::Journal(JournalFault::AlreadyFormatted)),
        Contents::Other if is_over => None,
        Contents::Other => Some(DiskFault::File),
    }
}

/// Examines a file of `sectors` sectors, and refuses it if it holds an endpoint (`Journal` with
/// `AlreadyFormatted`), or something else that may not be overwritten (`File`). The file is not
/// changed.
fn admit<F: DiskFile>(file: &mut F, sectors: u64, is_over: bool) -> Result<(), Failure>
    requires { 512 * sectors < 2 ^ 64 }
    ensures steady { (F.file file.new).behaves ≡ (F.file file.old).behaves }
    ensures same { Behaves (F.file file.old) → F.file file.new ≡ F.file file.old }
    ensures free { Behaves (F.file file.old)
        → OnOk result (Permits is_over (F.file file.old) sectors None) }
    ensures refused { Behaves (F.file file.old) → (fault : DiskFault)
        → IsErrOf result (Failure.Disk fault) → (fault ≡ disk.Journal journal.Disk)
        ⊎ Permits is_over (F.file file.old) sectors (Some fault) }
    ensures failed { IfErr result
        (λ failure. (fault : DiskFault) × (failure ≡ Failure.Disk fault)) }
{
    let Ok(contents) = contents_of(file, sectors) else {
        return Err(Failure::from(FileFault::Device));
    };
    match refusal_of(contents, is_over) {
        None => Ok(()),
        Some(fault) => Err(Failure::Disk(fault)),
    }
}

/// Claims a file that is open for reading and writing, if it may become the disk of an endpoint.
/// The fault is the first of these that applies: it is claimed or cannot be measured (`File`), its
/// length is not whole sectors (`Length`), it cannot be read (`Journal` with `Disk`), it is not
/// admitted. If the system runs out of memory the failure is `Memory`. The file is left unchanged.
fn claim_free<F: DiskFile>(file: F, is_over: bool) -> Result<ClaimedFile<F>, Failure>
    ensures free { Behaves (F.file file) → OnOk result (IsFree is_over (F.file file)) }
    ensures refused { IfErr result (BlankFails is_over (F.file file)) }
    ensures failed { IfErr result (λ failure. (failure ≡ Failure.Memory)
        ⊎ ((fault : DiskFault) × (failure ≡ Failure.Disk fault))) }
{
    let mut claimed = ClaimedFile::of(file)?;
    let sectors = claimed.sectors();
    admit(&mut claimed.file, sectors, is_over)?;
    Ok(claimed)
}

/// Makes the disk of a new endpoint in a new, empty file. Fails with `Memory`, or with `Disk`:
/// `File` if there is no space, or it cannot be synced; then the fault of the journal.
fn format_new<F: DiskFile>(file: F, layout: Layout, identity: &Identity) -> Result<(), Failure>
    ensures made { OnOk result (MakesEndpoint F.file file layout identity.now) }
    ensures refused { IfErr result (EndpointFails F.file identity.now) }
    ensures failed { IfErr result (λ failure. (failure ≡ Failure.Memory)
        ⊎ ((fault : DiskFault) × (failure ≡ Failure.Disk fault))) }
{
    let mut disk = FileDisk::blank(file, layout)?;
    macs_endpoint::format(&mut disk, identity)?;
    Ok(())
}

/// What the system returns for the file, or the failure: `Memory`, else `File`.
fn of_file<V>(answer: io::Result<V>) -> Result<V, Failure>
    ensures value { IfOk result (λ value. answer ≡ Ok value) }
    ensures memory { IfErr answer (λ error. error_kind error ≡ OutOfMemory
        → result ≡ Err Failure.Memory) }
    ensures other { IfErr answer (λ error. error_kind error ≢ OutOfMemory
        → result ≡ Err (Failure.Disk disk.File)) }
    ensures refused { IfErr result
        (λ failure. (failure ≡ Failure.Memory) ⊎ (failure ≡ Failure.Disk disk.File)) }
{
    match answer {
        Ok(value) => Ok(value),
        Err(error) => Err(failure_of(error, Failure::Disk(DiskFault::File))),
    }
}

/// Notes that the endpoint with the keys in the list beside a disk file is gone, if there is a
/// list. Fails with `Memory`, or with `Disk` and `File`.
fn close_keys<T: Files>(rt: &T, alloc: Global, path: &str) -> Result<(), Failure>
    ensures { IfErr result
        (λ failure. (failure ≡ Failure.Memory) ⊎ (failure ≡ Failure.Disk disk.File)) }
{
    let list = KeyList {
        rt,
        alloc,
        disk: path,
    };
    match list.close() {
        Ok(()) => Ok(()),
        Err(KeyFault::Memory) => Err(Failure::Memory),
        Err(KeyFault::Spent | KeyFault::File) => Err(Failure::Disk(DiskFault::File)),
    }
}

/// Makes the file of a new endpoint in place of a claimed one, with the same name.
fn replace<T: Files>(
    rt: &T,
    alloc: Global,
    path: &str,
    old: &T::File,
    layout: Layout,
    identity: &Identity,
) -> Result<(), Failure>
where
    T::File: DiskFile,
    ensures made { OnOk result
        ((new : T.File) × MakesEndpoint T.File.file new layout identity.now) }
    ensures refused { IfErr result (λ failure.
        ((fault : FileFault) × (failure ≡ failure_of_file fault))
        ⊎ EndpointFails T.File.file identity.now failure) }
    ensures failed { IfErr result (λ failure. (failure ≡ Failure.Memory)
        ⊎ ((fault : DiskFault) × (failure ≡ Failure.Disk fault))) }
{
    let mut renewal = of_file(Renewal::of(rt, alloc, path))?;
    let about = of_file(renewal.check(rt, old))?;
    let new = of_file(renewal.make(rt, &about))?;
    match format_new(new, layout, identity) {
        Ok(()) => of_file(renewal.put(rt)),
        Err(failure) => {
            renewal.give_up(rt);
            Err(failure)
        }
    }
}

/// Makes the file at a path that of a new endpoint, creating it if there is none. A new file is
/// formatted, then renamed over the existing one. Fails with `Memory`, or with `Disk` and the first
/// fault: `File` if there is no regular file, or standard output goes there; then as the file is
/// not free for it; `File` if the list of keys beside it cannot be written, or no new file can be
/// created beside it; then as the new one cannot be written or synced; `File` if it cannot be
/// renamed durably.
pub fn format_disk<T: Files>(
    rt: &T,
    alloc: Global,
    path: &str,
    how: NewFile,
    identity: &Identity,
) -> Result<(), Failure>
where
    T::File: DiskFile,
    ensures formats { OnOk result (Formats T.File.file how.is_over how.layout identity.now) }
    ensures refused { IfErr result (FormatFails T.File.file how.is_over identity.now) }
    ensures failed { IfErr result (λ failure. (failure ≡ Failure.Memory)
        ⊎ ((fault : DiskFault) × (failure ≡ Failure.Disk fault))) }
{
    let file = of_file(open_file(rt, path))?;
    let old = claim_free(file, how.is_over)?;
    close_keys(rt, alloc, path)?;
    replace(rt, alloc, path, &old.file, how.layout, identity)
}
