//! The name of the file that a relay writes its counters to.

ghost use Rattle.std.specs.Prelude.{◌≡◌, ◌⊎◌, IfErr};

use macs_cli::Failure;
use std::alloc::Global;
use std::fs;
use std::io::{ErrorKind, Read};
use std::rt::Files;

/// The first octets of each file of counters.
const FIRST_OCTETS: &[u8] = b"# HELP macsec_";

/// How many octets that is.
const LENGTH: usize = 14;

/// Whether the unread octets can be those of a file of counters: none, or its first octets.
fn are_counters<R: Read>(file: &mut R) -> bool {
    let mut octets = [0; LENGTH];
    match file.read(&mut octets) {
        Ok(count) => FIRST_OCTETS.starts_with(&octets[..count]),
        Err(_) => false,
    }
}

/// Whether nothing but a file of counters has this name. A file that a killed relay left half
/// written counts as one; a link does not, regardless of its target.
fn is_free<T: Files>(rt: &T, path: &str) -> bool {
    match rt.symlink_metadata(path) {
        Ok(about) if about.is_file() => match fs::open(rt, path) {
            Ok(mut file) => are_counters(&mut file),
            Err(_) => false,
        },
        Ok(_) => false,
        Err(error) => error.kind() == ErrorKind::NotFound,
    }
}

/// Refuses a name that belongs to a file that is not a file of counters, and a name whose new file,
/// with `.new` appended, would replace another file: a disk file could be lost. Fails with
/// `Control` then, and with `Memory`.
pub fn refuse_other_file<T: Files>(rt: &T, alloc: Global, path: &str) -> Result<(), Failure>
    ensures { IfErr result (λ failure. (failure ≡ Failure.Memory) ⊎ (failure ≡ Failure.Control)) }
{
    let new = format!(in alloc; "{path}.new")?;
    if is_free(rt, path) && is_free(rt, new.as_str()) {
        return Ok(());
    }
    Err(Failure::Control)
}
