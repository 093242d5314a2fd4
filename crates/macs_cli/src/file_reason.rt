//! Why a named file cannot be used, and the failure that reports it.

ghost use Rattle.std.specs.Prelude.{◌≡◌, ℕ, List, codes, IfOk, string_bytes};
ghost use Rattle.std.specs.IoError.{error_kind};
ghost use Rattle.std.specs.declared.io.ErrorKind.TheVariants.{OutOfMemory};
ghost use Rattle.macs_cli.specs.Reasons.{Complains, ComplainsOfDisk, Tells, reason_text};

use crate::failure::Failure;
use crate::printable;
use std::alloc::{AllocError, Global};
use std::io;
use std::io::ErrorKind;

/// The program's message for an error of the system on a file, by its kind.
fn reason_text(kind: ErrorKind) -> &'static str
    ensures { result.now ≡ reason_text kind }
{
    match kind {
        // Or a folder in its path is missing or is not a folder.
        ErrorKind::NotFound | ErrorKind::NotADirectory => "no such file",
        // Of the file, or of a folder in its path.
        ErrorKind::PermissionDenied => "no permission",
        ErrorKind::IsADirectory => "a folder",
        // In its path, such as a cycle.
        ErrorKind::FilesystemLoop | ErrorKind::TooManyLinks => "too many links",
        ErrorKind::WouldBlock => "in use by another program",
        ErrorKind::InvalidInput => "not a regular file, or standard output goes there",
        // A device error, for example, or a file system without locks.
        _ => "cannot be read",
    }
}

/// A message about something with this name: a word, the name without control characters, and a
/// reason.
pub fn told_of(alloc: Global, word: &str, name: &str, why: &str) -> Result<String, AllocError>
    ensures { IfOk result (λ text. Tells word.now name.now why.now (string_bytes text)) }
{
    let shown = printable(alloc, name)?;
    format!(in alloc; "{word}: {shown}: {why}")
}

/// The failure with a message why something with this name cannot be used, or `Memory` if there is
/// no memory for it.
pub fn failure_told(alloc: Global, word: &str, name: &str, why: &str) -> Failure
    ensures { Complains (Tells word.now name.now why.now) result }
{
    match told_of(alloc, word, name, why) {
        Ok(text) => Failure::Said(text),
        Err(_) => Failure::Memory,
    }
}

/// The failure with this message, or `Memory` if there is no memory for it.
pub fn failure_saying(text: Result<String, AllocError>) -> Failure
    ensures { (said : List ℕ) → IfOk text (λ t. string_bytes t ≡ said)
        → Complains (λ t. t ≡ said) result }
{
    match text {
        Ok(text) => Failure::Said(text),
        Err(_) => Failure::Memory,
    }
}

/// The failure for an error of the system on a file that is read: out of memory, or a message with
/// the reason.
pub fn failure_at(alloc: Global, word: &str, name: &str, error: io::Error) -> Failure
    ensures reason { Complains (Tells word.now name.now (reason_text (error_kind error))) result }
    ensures memory { error_kind error ≡ OutOfMemory → result ≡ Failure.Memory }
{
    let kind = error.kind();
    if kind == ErrorKind::OutOfMemory {
        return Failure::Memory;
    }
    failure_told(alloc, word, name, reason_text(kind))
}

/// The failure for an error of the system on the file of a disk.
pub fn failure_at_disk(alloc: Global, name: &str, error: io::Error) -> Failure
    ensures reason { ComplainsOfDisk
        (Tells (codes "disk file") name.now (reason_text (error_kind error))) result }
    ensures memory { error_kind error ≡ OutOfMemory → result ≡ Failure.Memory }
{
    let kind = error.kind();
    if kind == ErrorKind::OutOfMemory {
        return Failure::Memory;
    }
    match told_of(alloc, "disk file", name, reason_text(kind)) {
        Ok(text) => Failure::DiskFile(text),
        Err(_) => Failure::Memory,
    }
}
