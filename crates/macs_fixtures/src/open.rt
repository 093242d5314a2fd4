//! A file in memory that a kernel keeps.

use crate::file::MemFile;
use macs_disk::DiskFile;
use std::alloc::{Allocator, Global};
use std::cell::{RefCell, RefMut};
use std::io;
use std::io::ErrorKind;

/// An open file of a kernel, which keeps the file where this one is let go. So a test comes to the
/// file also where an opening of it failed. Since others may use the file at the same time, nothing
/// is claimed.
#[derive(Drop)]
pub struct OpenMemFile<'a, A: Allocator = Global> {
    kernel: &'a RefCell<MemFile<A>>,
}

impl<'a, A: Allocator> OpenMemFile<'a, A> {
    /// Opens the file.
    pub fn new(kernel: &'a RefCell<MemFile<A>>) -> OpenMemFile<'a, A> {
        OpenMemFile { kernel }
    }

    // The file, where nobody else is using it at this moment.
    fn file(&self) -> io::Result<RefMut<'_, MemFile<A>>> {
        match self.kernel.try_borrow_mut() {
            Ok(file) => Ok(file),
            Err(_) => Err(io::Error::from(ErrorKind::ResourceBusy)),
        }
    }
}

impl<A: Allocator> DiskFile for OpenMemFile<'_, A> {
    ghost use Rattle.macs_disk.specs.Evidence.{no-claim};

    fn claim(&mut self) -> io::Result<()> {
        self.file()?.claim()
    }

    fn size(&mut self) -> io::Result<u64> {
        self.file()?.size()
    }

    fn read_at(&mut self, at: u64, into: &mut [u8]) -> io::Result<usize> {
        self.file()?.read_at(at, into)
    }

    fn write_at(&mut self, at: u64, from: &[u8]) -> io::Result<usize> {
        self.file()?.write_at(at, from)
    }

    fn sync(&mut self) -> io::Result<()> {
        self.file()?.sync()
    }

    ghost sound = { λ _ behaves. no-claim behaves };
}
