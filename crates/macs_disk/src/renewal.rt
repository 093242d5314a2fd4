//! How a file is replaced by another one under its name.

use crate::disk_file::DiskFile;
use std::alloc::{AllocError, Allocator};
use std::fs::{Metadata, OpenFile, OpenOptions, Permissions};
use std::os::unix::fs::{MetadataExt, OpenOptionsExt, PermissionsExt};
use std::path::{Path, PathBuf};
use std::rt::Files;
use std::{fs, io};

/// Only its owner may read and write a new file, since a disk holds keys.
pub(crate) const OWNER_ALONE: u32 = 0o600;

/// The permission bits of a file's mode.
const MODE_BITS: u32 = 0o7777;

/// The name of a file that will be replaced by a new one, NAME.new, in the same folder.
///
/// Only the program that has claimed the file with this name touches NAME.new, and renames it. At
/// each moment the name is that of a whole file: the old one, or the new one.
#[derive(Drop)]
pub struct Renewal<A: Allocator> {
    /// The file's path, with links resolved.
    place: PathBuf<A>,
    /// The path of the new file.
    new: String<A>,
    /// The identity of the new file, once it was made.
    made: Option<Identity>,
}

/// The identity of a file of the system.
#[derive(Clone, Copy, Debug, PartialEq, Eq)]
struct Identity {
    device: u64,
    inode: u64,
}

impl Identity {
    /// The identity of the file with this metadata.
    fn of(about: &Metadata) -> Identity {
        Identity {
            device: about.dev(),
            inode: about.ino(),
        }
    }
}

/// The error if a condition is not met.
fn refused() -> io::Error {
    io::Error::from(io::ErrorKind::InvalidInput)
}

/// How a new file is made: no file has its name, and no link is followed.
fn how_to_make() -> OpenOptions {
    let mut options = OpenOptions::new();
    options.mode(OWNER_ALONE);
    options.read(true).write(true).create_new(true);
    options
}

/// The folder of a path, from its text alone.
fn folder_of(path: &str) -> &str {
    match Path::new(path).parent() {
        Some(folder) if !folder.as_str().is_empty() => folder.as_str(),
        _ => ".",
    }
}

/// Gives a file the owner, the group and the mode of another one, if they differ.
fn make_alike<R: Files>(rt: &R, file: &R::File, path: &str, like: &Metadata) -> io::Result<()> {
    let about = file.metadata()?;
    if about.uid() != like.uid() || about.gid() != like.gid() {
        rt.lchown(path, Some(like.uid()), Some(like.gid()))?;
    }
    if about.mode() & MODE_BITS != like.mode() & MODE_BITS {
        file.set_permissions(Permissions::from_mode(like.mode() & MODE_BITS))?;
    }
    Ok(())
}

/// Removes what an interrupted run left under a name.
fn remove_left_over<R: Files>(rt: &R, path: &str) -> io::Result<()> {
    match rt.remove_file(path) {
        Err(error) if error.kind() != io::ErrorKind::NotFound => Err(error),
        _ => Ok(()),
    }
}

impl<A: Allocator> Renewal<A> {
    /// The name of the file at `path`, which must exist.
    pub fn of<R: Files>(rt: &R, alloc: A, path: &str) -> io::Result<Renewal<A>>
    where
        A: Copy,
    {
        let place = rt.canonicalize(alloc, path)?;
        let Ok(new) = new_name(alloc, place.as_str()) else {
            return Err(io::Error::from(io::ErrorKind::OutOfMemory));
        };
        Ok(Renewal {
            place,
            new,
            made: None,
        })
    }

    /// The file's path, with links resolved.
    pub fn path(&self) -> &str {
        self.place.as_str()
    }

    /// Returns the metadata of a claimed file. Fails if the name is no longer that of this file, or
    /// the file has other names, or is not a regular file.
    pub fn check<R: Files>(&self, rt: &R, file: &R::File) -> io::Result<Metadata> {
        let about = file.metadata()?;
        if !self.names(rt, Identity::of(&about))? || !about.is_file() || about.nlink() != 1 {
            return Err(refused());
        }
        Ok(about)
    }

    /// Whether the name is that of this file.
    fn names<R: Files>(&self, rt: &R, file: Identity) -> io::Result<bool> {
        let about = rt.symlink_metadata(self.place.as_str())?;
        Ok(Identity::of(&about) == file)
    }

    /// Makes the new file, empty and claimed, with the owner and the mode of the old one. Any file
    /// that already has its name is removed.
    pub fn make<R: Files>(&mut self, rt: &R, like: &Metadata) -> io::Result<R::File>
    where
        R::File: DiskFile,
    {
        let path = self.new.as_str();
        remove_left_over(rt, path)?;
        let mut file = how_to_make().open(rt, path)?;
        match self.prepare(rt, &mut file, like) {
            Ok(made) => {
                self.made = Some(made);
                Ok(file)
            }
            Err(error) => {
                self.give_up(rt);
                Err(error)
            }
        }
    }

    /// Claims the new file, gives it the owner and the mode of the old one, and returns its
    /// identity.
    fn prepare<R: Files>(&self, rt: &R, file: &mut R::File, like: &Metadata) -> io::Result<Identity>
    where
        R::File: DiskFile,
    {
        file.claim()?;
        make_alike(rt, file, self.new.as_str(), like)?;
        Ok(Identity::of(&file.metadata()?))
    }

    /// Renames the new file, all of which is durable, over the old one, and returns the folder. If
    /// that fails, both files keep their names.
    fn take_name<R: Files>(&self, rt: &R) -> io::Result<R::File> {
        let place = self.place.as_str();
        let folder = fs::open(rt, folder_of(place))?;
        rt.rename(self.new.as_str(), place)?;
        Ok(folder)
    }

    /// Renames the new file, all of which is durable, over the old one, and makes that durable.
    ///
    /// Fails if it cannot be renamed: the name is then that of the old file, and the new one is
    /// removed. Also fails if the folder cannot be synced, or the name is not that of the new file
    /// after that: the name is then left as it is.
    pub fn put<R: Files>(&self, rt: &R) -> io::Result<()> {
        let folder = match self.take_name(rt) {
            Ok(folder) => folder,
            Err(error) => {
                self.give_up(rt);
                return Err(error);
            }
        };
        folder.sync_all()?;
        match self.made {
            Some(made) if self.names(rt, made)? => Ok(()),
            _ => Err(refused()),
        }
    }

    /// Removes the new file, which was not renamed.
    pub fn give_up<R: Files>(&self, rt: &R) {
        let _ = rt.remove_file(self.new.as_str());
    }
}

/// The name of a new file.
fn new_name<A: Allocator>(alloc: A, path: &str) -> Result<String<A>, AllocError> {
    let name = format!(in alloc; "{path}.new")?;
    Ok(name)
}
