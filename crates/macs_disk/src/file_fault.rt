//! Why there is no disk in a file.

ghost use Rattle.std.specs.Prelude.{◌≡◌, ◌≢◌, ◌↔◌};
ghost use Rattle.std.specs.IoError.{error_kind};
ghost use Rattle.std.specs.declared.io.ErrorKind.TheVariants.{OutOfMemory};
ghost use Rattle.macs_disk.specs.declared.file_fault.FileFault.TheVariants.{Device as NoDevice};
ghost use Rattle.macs_disk.specs.declared.file_fault.FileFault.TheVariants.{Length as NotWhole};
ghost use Rattle.macs_disk.specs.declared.file_fault.FileFault.TheVariants.{Memory as NoMemory};

use crate::disk::DeviceFault;
use std::io;

/// Why there is no disk in a file. The file is opened, claimed and measured, and its name is
/// checked. Then a new file is made beside it, the octets are copied there and synced, and the copy
/// is extended, and synced, if requested. Finally the copy takes the name, and the folder is
/// synced. The fault is that of the first step that fails, in this order.
#[derive(Clone, Copy, Debug, PartialEq, Eq)]
pub enum FileFault {
    /// The file cannot be opened for reading and writing, another open of it has claimed it, or it
    /// cannot be measured. It has a second name, or is a mount point. No new file can be made
    /// beside it, written, extended or given its name durably. A spaced file is never extended, and
    /// no file is extended to 2^54 sectors or more.
    Open,
    /// The file is not a whole number of sectors of 512 octets. It is left unchanged.
    Length,
    /// The file cannot be read, its copy cannot be synced, or the mark of the copy cannot be read.
    Device,
    /// The operating system had no memory for one of the calls whose failure is otherwise `Open`,
    /// or there was none for the name of the new file.
    Memory,
}

impl From<io::Error> for FileFault {
    ghost from_gives = { λ error fault. (fault ≢ NotWhole) × (fault ≢ NoDevice)
        × ((fault ≡ NoMemory) ↔ (error_kind error ≡ OutOfMemory)) };

    fn from(error: io::Error) -> Self {
        if error.kind() == io::ErrorKind::OutOfMemory {
            return FileFault::Memory;
        }
        FileFault::Open
    }
}

impl From<DeviceFault> for FileFault {
    ghost from_gives = { λ _ fault. fault ≡ NoDevice };

    fn from(_: DeviceFault) -> Self {
        FileFault::Device
    }
}
