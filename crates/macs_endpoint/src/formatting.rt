//! Making the disk of a new endpoint.

ghost use Rattle.macs_endpoint.specs.Formatting.{IsFormat};

use macs_config::Identity;
use macs_disk::SectorDisk;
use macs_journal::JournalFault;

/// Makes a disk that of a new endpoint, with this identity and the default configuration. Fails
/// with `TooSmall` if there are fewer than 1,028 sectors, then with `Disk` at the first device call
/// that fails, and with `AlreadyFormatted` if a head gate reads open after a first sync. `TooSmall`
/// and `AlreadyFormatted` write nothing; if a head gate reads open, no sector is touched,
/// regardless of the result. A `format` interrupted by `Disk` may be called again, unless it left a
/// head gate open: then it was complete.
pub fn format<D: SectorDisk>(disk: &mut D, identity: &Identity) -> Result<(), JournalFault>
    ensures { IsFormat D.disk disk.old identity.now result disk.new }
{
    macs_journal::format(disk, identity)
}
