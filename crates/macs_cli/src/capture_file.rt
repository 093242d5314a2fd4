//! What captures need from a file, besides what a disk does.

ghost use Rattle.std.specs.Prelude.{◌≡◌, OnErr, OnOk};
ghost use Rattle.std.specs.IoError.{error_kind};
ghost use Rattle.macs_disk.specs.FileFailures.{Claims, NotesFailure};
ghost use Rattle.macs_disk.specs.Files.{Behaves, IsClaimed, file_cut};

use macs_disk::DiskFile;
use std::fs::File;
use std::io;

/// A file read or written as a capture.
pub trait CaptureFile: DiskFile {
    /// Claims the file until it is closed, along with other readers. Fails if another open of the
    /// file has claimed it exclusively.
    fn share(&mut self) -> io::Result<()>
        ensures steady { (Self.file self.new).behaves ≡ (Self.file self.old).behaves }
        ensures effect { Behaves (Self.file self.old) → Self.file self.new ≡ Self.file self.old }
        ensures failure { NotesFailure (Self.failures self.old) (Self.failures self.new) Claims
            error_kind result };

    /// Truncates the file to zero length. Nothing is promised for a file that is not claimed, since
    /// others may write to it.
    fn cut(&mut self) -> io::Result<()>
        ensures steady { (Self.file self.new).behaves ≡ (Self.file self.old).behaves }
        ensures ok { Behaves (Self.file self.old) → IsClaimed (Self.file self.old)
            → OnOk result (Self.file self.new ≡ file_cut (Self.file self.old)) }
        ensures err { Behaves (Self.file self.old)
            → OnErr result (Self.file self.new ≡ Self.file self.old) };
}

impl CaptureFile for File {
    fn share(&mut self) -> io::Result<()> {
        self.try_lock_shared()?;
        Ok(())
    }

    fn cut(&mut self) -> io::Result<()> {
        self.set_len(0)
    }
}
