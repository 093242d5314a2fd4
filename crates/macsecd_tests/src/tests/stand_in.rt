//! A stand-in for the system: it hands on to the system's own files and sockets, but for the file
//! of one path, of which something fails, for wires at which a frame waits, and for what goes on
//! beside a relay.

use super::beside::Beside;
use super::peers::Peers;
use macs_disk::DiskFile;
use macs_program::CaptureFile;
use std::alloc::Allocator;
use std::env::FillError;
use std::fs::{File, Metadata, OpenFile, OpenOptions, Permissions};
use std::io;
use std::io::{ErrorKind, PipeReader, PipeWriter, Read, Seek, SeekFrom, Write};
use std::net::{Net, SocketAddr, UdpSocket};
use std::os::fd::{BorrowedFd, OwnedFd};
use std::os::unix::net;
use std::os::unix::net::UnixStream;
use std::path::PathBuf;
use std::random::RandomSource;
use std::rt::{Clock, Env, Files};
use std::time::Duration;

/// What fails of a file. Calls of a kind are counted from 1.
#[derive(Clone, Copy)]
pub enum Broken {
    Nothing,
    /// It is not opened.
    Opening(ErrorKind),
    /// It is not opened to read: that is not allowed.
    Unreadable,
    /// It is a device, which is opened to write alone: an opening to read would wait.
    Special,
    /// Standard output goes there.
    Printed,
    /// This read. Each one before it gives 100 octets at most.
    Read(u32, ErrorKind),
    /// This write.
    Write(u32),
    /// Each flush.
    Flush,
    /// This sync of its octets.
    Sync(u32),
    /// Each sync of the folder that it is.
    Folder,
}

/// How many octets a read gives at most where a later one fails.
const SHORT_READ: usize = 100;

/// A file of the system of which something may fail.
pub struct BrokenFile<'a, R> {
    system: &'a R,
    file: File,
    broken: Broken,
    /// What goes on beside a program that has this for its disk file.
    beside: Option<&'a Beside>,
    /// How many calls were made of the kind that fails.
    made: u32,
}

impl<R> Drop for BrokenFile<'_, R> {
    fn drop(self) {
        let Self {
            system: _,
            file: _file,
            broken: _,
            beside,
            made: _,
        } = self;
        if let Some(beside) = beside {
            beside.look_at_close();
        }
    }
}

impl<R: Files> BrokenFile<'_, R> {
    /// Looks at the moment of a call of a disk file.
    fn look(&self) {
        if let Some(beside) = self.beside {
            beside.look_at_call(self.system);
        }
    }

    /// Counts a call of the kind that fails. An error where it is the one.
    fn count(&mut self, failing: u32, kind: ErrorKind) -> io::Result<()> {
        self.made = self.made.saturating_add(1);
        if self.made == failing {
            return Err(io::Error::from(kind));
        }
        Ok(())
    }

    /// Counts a read, and answers how many of so many octets it may give.
    fn count_read(&mut self, room: usize) -> io::Result<usize> {
        match self.broken {
            Broken::Read(failing, kind) => {
                self.count(failing, kind)?;
                Ok(room.min(SHORT_READ))
            }
            _ => Ok(room),
        }
    }

    /// Counts a write.
    fn count_write(&mut self) -> io::Result<()> {
        match self.broken {
            Broken::Write(failing) => self.count(failing, ErrorKind::Other),
            _ => Ok(()),
        }
    }
}

impl<R: Files> Read for BrokenFile<'_, R> {
    fn read(&mut self, into: &mut [u8]) -> io::Result<usize> {
        let most = self.count_read(into.len())?.min(into.len());
        self.file.read(&mut into[..most])
    }
}

impl<R: Files> Write for BrokenFile<'_, R> {
    fn write(&mut self, from: &[u8]) -> io::Result<usize> {
        self.count_write()?;
        self.file.write(from)
    }

    fn flush(&mut self) -> io::Result<()> {
        match self.broken {
            Broken::Flush => Err(io::Error::from(ErrorKind::Other)),
            _ => self.file.flush(),
        }
    }
}

impl<R> Seek for BrokenFile<'_, R> {
    fn seek(&mut self, to: SeekFrom) -> io::Result<u64> {
        self.file.seek(to)
    }
}

impl<R> OpenFile for BrokenFile<'_, R> {
    fn metadata(&self) -> io::Result<Metadata> {
        self.file.metadata()
    }

    fn set_len(&self, size: u64) -> io::Result<()> {
        self.file.set_len(size)
    }

    fn sync_all(&self) -> io::Result<()> {
        match self.broken {
            Broken::Folder => Err(io::Error::from(ErrorKind::Other)),
            _ => self.file.sync_all(),
        }
    }

    fn sync_data(&self) -> io::Result<()> {
        self.file.sync_data()
    }

    fn set_permissions(&self, to: Permissions) -> io::Result<()> {
        self.file.set_permissions(to)
    }
}

impl<R: Files> DiskFile for BrokenFile<'_, R> {
    ghost use Rattle.macs_disk.specs.Evidence.{no-claim};

    fn claim(&mut self) -> io::Result<()> {
        self.file.claim()
    }

    fn size(&mut self) -> io::Result<u64> {
        self.file.size()
    }

    fn read_at(&mut self, at: u64, into: &mut [u8]) -> io::Result<usize> {
        self.look();
        let most = self.count_read(into.len())?.min(into.len());
        self.file.read_at(at, &mut into[..most])
    }

    fn write_at(&mut self, at: u64, from: &[u8]) -> io::Result<usize> {
        self.look();
        self.count_write()?;
        self.file.write_at(at, from)
    }

    fn sync(&mut self) -> io::Result<()> {
        self.look();
        if let Broken::Sync(failing) = self.broken {
            self.count(failing, ErrorKind::Other)?;
        }
        self.file.sync()
    }

    ghost sound = { λ _ behaves. no-claim behaves };
}

impl<R: Files> CaptureFile for BrokenFile<'_, R> {
    fn share(&mut self) -> io::Result<()> {
        self.file.share()
    }

    fn cut(&mut self) -> io::Result<()> {
        self.file.cut()
    }
}

/// The system, but for the file of one path, with peers of the wires where there are any, and with
/// what goes on beside a relay, if anything does.
#[derive(Clone, Copy)]
pub struct StandIn<'a, R> {
    pub system: &'a R,
    pub path: &'static str,
    pub broken: Broken,
    pub peers: Option<&'a Peers>,
    pub beside: Option<&'a Beside>,
}

impl<'a, R: Files<File = File>> Files for StandIn<'a, R> {
    type File = BrokenFile<'a, R>;

    type Dir = R::Dir;

    fn open_file(&self, how: &OpenOptions, path: &str) -> io::Result<BrokenFile<'a, R>> {
        // A path that was resolved has the folders in front of it too. What fails of a file fails
        // of the new one that is to have its name.
        let name = path.strip_suffix(".new").unwrap_or(path);
        let (broken, beside) = if name.ends_with(self.path) {
            (self.broken, self.beside)
        } else {
            (Broken::Nothing, None)
        };
        if let Broken::Opening(kind) = broken {
            return Err(io::Error::from(kind));
        }
        match broken {
            Broken::Unreadable if how.asks_read() => {
                return Err(io::Error::from(ErrorKind::PermissionDenied));
            }
            Broken::Special if how.asks_read() => return Err(io::Error::from(ErrorKind::Other)),
            _ => {}
        }
        let file = self.system.open_file(how, path)?;
        Ok(BrokenFile {
            system: self.system,
            file,
            broken,
            beside,
            made: 0,
        })
    }

    fn open_dir(&self, path: &str) -> io::Result<R::Dir> {
        self.system.open_dir(path)
    }

    fn metadata(&self, path: &str) -> io::Result<Metadata> {
        match self.broken {
            Broken::Printed if path == "/dev/stdout" => self.system.metadata(self.path),
            Broken::Special if path == self.path => self.system.metadata("/dev/full"),
            _ => self.system.metadata(path),
        }
    }

    fn symlink_metadata(&self, path: &str) -> io::Result<Metadata> {
        self.system.symlink_metadata(path)
    }

    fn copy(&self, from: &str, to: &str) -> io::Result<u64> {
        self.system.copy(from, to)
    }

    fn rename(&self, from: &str, to: &str) -> io::Result<()> {
        self.system.rename(from, to)
    }

    fn remove_file(&self, path: &str) -> io::Result<()> {
        if let Some(beside) = self.beside {
            beside.look_at_removal(self.system, path);
        }
        self.system.remove_file(path)
    }

    fn create_dir(&self, path: &str) -> io::Result<()> {
        self.system.create_dir(path)
    }

    fn remove_dir(&self, path: &str) -> io::Result<()> {
        self.system.remove_dir(path)
    }

    fn remove_dir_all<B: Allocator>(&self, alloc: B, path: &str) -> io::Result<()> {
        self.system.remove_dir_all(alloc, path)
    }

    fn canonicalize<B: Allocator>(&self, alloc: B, path: &str) -> io::Result<PathBuf<B>> {
        self.system.canonicalize(alloc, path)
    }

    fn read_link<B: Allocator>(&self, alloc: B, path: &str) -> io::Result<PathBuf<B>> {
        self.system.read_link(alloc, path)
    }

    fn hard_link(&self, original: &str, link: &str) -> io::Result<()> {
        self.system.hard_link(original, link)
    }

    fn set_permissions(&self, path: &str, to: Permissions) -> io::Result<()> {
        self.system.set_permissions(path, to)
    }

    fn symlink(&self, original: &str, link: &str) -> io::Result<()> {
        self.system.symlink(original, link)
    }

    fn pipe(&self) -> io::Result<(PipeReader, PipeWriter)> {
        self.system.pipe()
    }

    fn chown(&self, path: &str, user: Option<u32>, group: Option<u32>) -> io::Result<()> {
        self.system.chown(path, user, group)
    }

    fn lchown(&self, path: &str, user: Option<u32>, group: Option<u32>) -> io::Result<()> {
        self.system.lchown(path, user, group)
    }

    fn create_dir_with_mode(&self, path: &str, mode: u32) -> io::Result<()> {
        self.system.create_dir_with_mode(path, mode)
    }

    fn bind_unix(&self, socket: BorrowedFd<'_>, address: &net::SocketAddr) -> io::Result<()> {
        self.system.bind_unix(socket, address)
    }
}

/// An attended relay asks for the time in each quiet turn.
impl<R: Clock + Files> Clock for StandIn<'_, R> {
    fn monotonic(&self) -> io::Result<Duration> {
        if let Some(beside) = self.beside {
            beside.look(self.system, "turn");
            beside.go_on();
        }
        self.system.monotonic()
    }

    fn since_1970(&self) -> io::Result<Duration> {
        self.system.since_1970()
    }
}

impl<R: Env + Files + Net> Env for StandIn<'_, R> {
    fn arg(&self, i: usize, buf: &mut [u8]) -> Result<usize, FillError> {
        self.system.arg(i, buf)
    }

    /// An attended relay asks for this one name, once everything is bound, and so does a keeper.
    fn var(&self, name: &str, buf: &mut [u8]) -> Result<usize, FillError> {
        match self.beside {
            Some(beside) => {
                beside.look(self.system, "bound");
                beside.come(self.system);
                let name = beside.parent().as_bytes();
                if name.is_empty() {
                    return Err(FillError::NotPresent);
                }
                let Some(front) = buf.get_mut(..name.len()) else {
                    return Err(FillError::TooLong);
                };
                front.copy_from_slice(name);
                Ok(name.len())
            }
            None => self.system.var(name, buf),
        }
    }

    fn var_at(&self, i: usize, buf: &mut [u8]) -> Result<usize, FillError> {
        self.system.var_at(i, buf)
    }

    fn current_dir(&self, buf: &mut [u8]) -> io::Result<usize> {
        self.system.current_dir(buf)
    }

    fn set_current_dir(&self, path: &str) -> io::Result<()> {
        self.system.set_current_dir(path)
    }
}

impl<R: RandomSource> RandomSource for StandIn<'_, R> {
    fn fill_bytes(&self, buf: &mut [u8]) -> io::Result<()> {
        self.system.fill_bytes(buf)
    }
}

impl<R: Net + Files> Net for StandIn<'_, R> {
    type Stream = R::Stream;

    type Listener = R::Listener;

    fn bind(&self, at: SocketAddr) -> io::Result<R::Listener> {
        self.system.bind(at)
    }

    fn connect(&self, at: SocketAddr) -> io::Result<R::Stream> {
        self.system.connect(at)
    }

    fn connect_timeout(&self, at: SocketAddr, limit: Duration) -> io::Result<R::Stream> {
        self.system.connect_timeout(at, limit)
    }

    fn lookup_host(&self, host: &str, port: u16, found: &mut [SocketAddr]) -> io::Result<usize> {
        self.system.lookup_host(host, port, found)
    }

    fn unix_pair(&self) -> io::Result<(UnixStream, UnixStream)> {
        self.system.unix_pair()
    }

    fn bind_udp(&self, at: SocketAddr) -> io::Result<UdpSocket> {
        if let Some(beside) = self.beside {
            beside.look(self.system, "wire");
        }
        match self.peers {
            Some(peers) => peers.bind(self.system, at),
            None => self.system.bind_udp(at),
        }
    }

    fn connect_unix(&self, at: &net::SocketAddr) -> io::Result<UnixStream> {
        match self.beside {
            Some(beside) => beside.connect(self.system, at),
            None => self.system.connect_unix(at),
        }
    }

    /// A listener of a keeper waits for a client, but not for long.
    fn unix_socket(&self) -> io::Result<OwnedFd> {
        let socket = self.system.unix_socket()?;
        match self.beside {
            Some(beside) => beside.limit(socket),
            None => Ok(socket),
        }
    }
}
