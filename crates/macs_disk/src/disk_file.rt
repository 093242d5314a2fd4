//! What a disk in a file needs from the file.

ghost use Rattle.std.specs.Prelude.{◌≡◌, ◌≤◌, List, Option, None, length, IfErr, IfOk};
ghost use Rattle.std.specs.IoError.{error_kind};
ghost use Rattle.std.specs.declared.io.ErrorKind.TheVariants.{Interrupted};
ghost use Rattle.macs_disk.specs.FileFailures.{Claims, FailedCall, Measures, Reads, Syncs};
ghost use Rattle.macs_disk.specs.FileFailures.{NotesFailure, Writes};
ghost use Rattle.macs_disk.specs.Files.{Behaves, ClaimsFile, FileState, HasZeros, IsSoundFile};
ghost use Rattle.macs_disk.specs.Files.{ReadsFile};
ghost use Rattle.macs_disk.specs.Files.{SyncsFile, WritesFile, unknown_file};

use libc::lseek;
use std::fs::File;
use std::io;
use std::os::fd::AsRawFd;
use std::os::unix::fs::FileExt;

/// The whence values of lseek(2) for data and for a hole. A seek moves the position of the file,
/// which nothing here uses.
const SEEK_DATA: i32 = 3;

const SEEK_HOLE: i32 = 4;

/// An open file, as a disk uses it. Tests replace it with files whose calls fail.
///
/// What is said here applies to a file that behaves. Whether a file behaves never changes. That is
/// not claimed of a file of the operating system, and nothing is known about one.
pub trait DiskFile: Drop {
    /// The file at this moment: what its cache shows, what the device has, what a power loss may
    /// leave.
    ghost file: { Self → FileState } = { λ _. unknown_file };

    /// Which of its calls have failed so far, in order, if known.
    ghost failures: { Self → Option (List FailedCall) } = { λ _. None };

    /// Claims the file until it is closed. Fails if another open of the file has claimed it. The
    /// claim is advisory: it stops only those that ask for one.
    fn claim(&mut self) -> io::Result<()>
        ensures steady { (file self.new).behaves ≡ (file self.old).behaves }
        ensures effect { Behaves (file self.old)
            → ClaimsFile (file self.old) (file self.new) result }
        ensures failure { NotesFailure (failures self.old) (failures self.new) Claims
            error_kind result };

    /// How many octets the file has.
    fn size(&mut self) -> io::Result<u64>
        ensures steady { (file self.new).behaves ≡ (file self.old).behaves }
        ensures effect { Behaves (file self.old) → file self.new ≡ file self.old }
        ensures size { Behaves (file self.old) → IfOk result (λ size. size ≡ (file self.old).size) }
        ensures failure { NotesFailure (failures self.old) (failures self.new) Measures
            error_kind result };

    /// Reads octets from octet `at` on, maybe fewer than fit. Returns how many: none if the file
    /// has none there.
    fn read_at(&mut self, at: u64, into: &mut [u8]) -> io::Result<usize>
        ensures bound { IfOk result (λ count. count ≤ length into.new) }
        ensures steady { (file self.new).behaves ≡ (file self.old).behaves }
        ensures effect { Behaves (file self.old)
            → ReadsFile (file self.old) (file self.new) at into.new result }
        ensures failure { NotesFailure (failures self.old) (failures self.new) Reads
            error_kind result };

    /// The octet before which, from octet `at` on, the file is known to have only zeros, without a
    /// read: the end of a hole, and `u64::MAX` in the last one.
    fn zeros_end(&mut self, at: u64) -> u64
        ensures after { at ≤ result }
        ensures steady { (file self.new).behaves ≡ (file self.old).behaves }
        ensures same { Behaves (file self.old) → file self.new ≡ file self.old }
        ensures zeros { Behaves (file self.old) → HasZeros (file self.old) at result }
        ensures quiet { failures self.new ≡ failures self.old }
    {
        at
    }

    /// Writes octets from octet `at` on, maybe fewer than given. Returns how many. If the file ends
    /// before, it is extended. An interrupted write wrote none.
    fn write_at(&mut self, at: u64, from: &[u8]) -> io::Result<usize>
        ensures bound { IfOk result (λ count. count ≤ length from.now) }
        ensures steady { (file self.new).behaves ≡ (file self.old).behaves }
        ensures effect { Behaves (file self.old)
            → WritesFile (file self.old) (file self.new) at from.now result }
        ensures interrupted { Behaves (file self.old)
            → IfErr result (λ error. error_kind error ≡ Interrupted
            → file self.new ≡ file self.old) }
        ensures failure { NotesFailure (failures self.old) (failures self.new) Writes
            error_kind result };

    /// Makes the file's octets and its length durable on the device.
    fn sync(&mut self) -> io::Result<()>
        ensures steady { (file self.new).behaves ≡ (file self.old).behaves }
        ensures effect { Behaves (file self.old)
            → SyncsFile (file self.old) (file self.new) result }
        ensures failure { NotesFailure (failures self.old) (failures self.new) Syncs
            error_kind result };

    /// A file that behaves has octets, shows what is durable where nothing is pending, and zeros
    /// after its end.
    ghost sound: { (it : Self) → Behaves (file it) → IsSoundFile (file it) };
}

impl DiskFile for File {
    ghost use Rattle.macs_disk.specs.Evidence.{no-claim};

    fn claim(&mut self) -> io::Result<()> {
        self.try_lock()?;
        Ok(())
    }

    fn size(&mut self) -> io::Result<u64> {
        let about = self.metadata()?;
        Ok(about.len())
    }

    fn read_at(&mut self, at: u64, into: &mut [u8]) -> io::Result<usize> {
        FileExt::read_at(self, into, at)
    }

    fn zeros_end(&mut self, at: u64) -> u64 {
        let from = at.cast_signed();
        let data = lseek(self.as_raw_fd(), from, SEEK_DATA);
        if data >= 0 {
            return at.max(data.cast_unsigned());
        }
        // No data follows, or the system cannot tell: then it knows of no hole either.
        if lseek(self.as_raw_fd(), from, SEEK_HOLE) == from {
            return u64::MAX;
        }
        at
    }

    fn write_at(&mut self, at: u64, from: &[u8]) -> io::Result<usize> {
        FileExt::write_at(self, from, at)
    }

    /// fdatasync: the octets, and of the metadata the size and all else that is needed to read
    /// them. Its times are not part of a disk.
    fn sync(&mut self) -> io::Result<()> {
        self.sync_data()
    }

    ghost sound = { λ _ behaves. no-claim behaves };
}
