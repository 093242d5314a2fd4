//! A folder in memory that a kernel keeps, with the file of a disk in it.

use crate::blocks::DeviceBlock;
use crate::file::MemFile;
use crate::open::OpenMemFile;
use macs_disk::{ClaimedFile, FileDisk, FileFault, Layout};
use std::alloc::{AllocError, Allocator, Global};
use std::cell::{Cell, RefCell};
use std::io;
use std::io::ErrorKind;

/// A folder of a kernel with one name, and room for a file beside the one that has the name. A
/// rename is done at once and is durable: no power loss undoes it.
#[derive(Drop)]
pub struct MemFolder<A: Allocator = Global> {
    first: RefCell<MemFile<A>>,
    second: RefCell<MemFile<A>>,
    /// The second file has the name.
    is_second: Cell<bool>,
}

impl<A: Allocator + Copy> MemFolder<A> {
    /// A folder whose name is that of an empty file. Either file has room for so many pages, on a
    /// device of such blocks. A call of one moves at most so many octets.
    pub fn new(
        alloc: A,
        pages: u16,
        block: DeviceBlock,
        most: usize,
    ) -> Result<MemFolder<A>, AllocError> {
        Ok(MemFolder {
            first: RefCell::new(MemFile::new(alloc, pages, block, most)?),
            second: RefCell::new(MemFile::new(alloc, pages, block, most)?),
            is_second: Cell::new(false),
        })
    }
}

impl<A: Allocator> MemFolder<A> {
    /// The file that has the name.
    pub fn named(&self) -> &RefCell<MemFile<A>> {
        if self.is_second.get() {
            &self.second
        } else {
            &self.first
        }
    }

    /// The file beside it, as it was left, if it was made.
    pub fn beside(&self) -> &RefCell<MemFile<A>> {
        if self.is_second.get() {
            &self.first
        } else {
            &self.second
        }
    }

    /// Makes the file beside anew, and opens it. An error where somebody is using it at this
    /// moment.
    pub fn make_beside(&self) -> io::Result<OpenMemFile<'_, A>> {
        let beside = self.beside();
        match beside.try_borrow_mut() {
            Ok(mut file) => file.renew(),
            Err(_) => return Err(io::Error::from(ErrorKind::ResourceBusy)),
        }
        Ok(OpenMemFile::new(beside))
    }

    /// The file beside takes the name. The one that had it is beside then.
    pub fn rename(&self) {
        self.is_second.set(!self.is_second.get());
    }
}

/// Opens the disk of at least so many sectors in a folder's file, as `FileDisk::create` does: the
/// file is claimed and copied into the one beside, which takes its name.
pub fn open_disk<A: Allocator>(
    folder: &MemFolder<A>,
    least: u64,
) -> Result<FileDisk<OpenMemFile<'_, A>>, FileFault> {
    let mut old = ClaimedFile::of(OpenMemFile::new(folder.named()))?;
    let disk = FileDisk::over(&mut old, folder.make_beside()?, least)?;
    folder.rename();
    Ok(disk)
}

/// Makes a new disk of this layout in the file beside, which takes the name.
pub fn make_disk<A: Allocator>(
    folder: &MemFolder<A>,
    layout: Layout,
) -> Result<FileDisk<OpenMemFile<'_, A>>, FileFault> {
    let disk = FileDisk::blank(folder.make_beside()?, layout)?;
    folder.rename();
    Ok(disk)
}
