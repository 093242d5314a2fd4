//! How a control socket gets its name: a stale socket is removed, and only the owner of the program
//! can reach the new one, from its first moment on.

ghost use Rattle.std.specs.Prelude.{◌≡◌, IfNone, OnSome};
ghost use Rattle.macs_control.specs.Binding.{Clears, IsBound, IsNotBound, IsNotNamed};
ghost use Rattle.macs_control.specs.Binding.{named_calls};
ghost use Rattle.macs_control.specs.Calls.{with_calls};

use std::io::ErrorKind;
use std::net::Net;
use std::os::fd::{AsFd, AsRawFd, OwnedFd};
use std::os::unix::fs::FileTypeExt;
use std::os::unix::net::{SocketAddr, UnixListener, UnixStream};
use std::rt::Files;

/// The mode of the socket: only its owner can connect to it.
const OWNER_ALONE: u32 = 0o600;

/// How many connections may wait to be accepted.
const WAITING: i32 = 16;

/// What is found at the name of a socket.
#[derive(Clone, Copy, Debug, PartialEq, Eq)]
pub enum Reach {
    /// Nothing.
    Nothing,
    /// The socket of a program that ended.
    Stale,
    /// A program that listens, or something that is not a socket.
    Taken,
}

/// The system calls that make a control socket. Tests replace them.
pub trait LocalSockets {
    ghost use Rattle.std.specs.Prelude.{◌≡◌, [], ◌∷◌, List, Option, None, is_some};
    ghost use Rattle.macs_control.specs.Binding.{Binds, Listens, Makes, Reaches, Removes, SetsMode};
    ghost use Rattle.macs_control.specs.Binding.{SocketCall};
    ghost use Rattle.macs_control.specs.Calls.{with_calls};

    /// The calls so far, in order, and the result of each, if known.
    ghost asked: { Self → Option (List SocketCall) } = { λ _. None };

    /// Looks up what has a name.
    fn reach(&mut self, path: &str) -> Reach
        ensures { asked self.new ≡ with_calls (asked self.old) (Reaches path.now result ∷ []) };

    /// Removes a name, and returns whether that succeeded.
    fn remove(&mut self, path: &str) -> bool
        ensures { asked self.new ≡ with_calls (asked self.old) (Removes path.now result ∷ []) };

    /// A socket without a name.
    fn make(&mut self) -> Option<OwnedFd>
        ensures { asked self.new ≡ with_calls (asked self.old) (Makes (is_some result) ∷ []) };

    /// Sets the mode of a socket, which its file gets when it is bound.
    fn set_mode(&mut self, socket: &OwnedFd, mode: u32) -> bool
        ensures { asked self.new ≡ with_calls (asked self.old) (SetsMode mode result ∷ []) };

    /// Binds a socket to a name.
    fn bind(&mut self, socket: &OwnedFd, path: &str) -> bool
        ensures { asked self.new ≡ with_calls (asked self.old) (Binds path.now result ∷ []) };

    /// Makes a socket listen, and makes it non-blocking.
    fn listen(&mut self, socket: OwnedFd) -> Option<UnixListener>
        ensures { asked self.new ≡ with_calls (asked self.old) (Listens (is_some result) ∷ []) };
}

/// The local sockets of the system.
#[derive(Clone, Copy)]
pub struct SystemSockets<'a, T> {
    pub rt: &'a T,
}

/// Whether a socket, and no other kind of file, has a name.
fn is_socket<T: Files>(rt: &T, path: &str) -> bool {
    match rt.symlink_metadata(path) {
        Ok(found) => found.file_type().is_socket(),
        Err(_) => false,
    }
}

impl<T: Files + Net> LocalSockets for SystemSockets<'_, T> {
    fn reach(&mut self, path: &str) -> Reach {
        match UnixStream::connect(self.rt, path) {
            Ok(_) => Reach::Taken,
            // A file that is not a socket refuses too.
            Err(error) if error.kind() == ErrorKind::ConnectionRefused => {
                if is_socket(self.rt, path) {
                    Reach::Stale
                } else {
                    Reach::Taken
                }
            }
            Err(error) if error.kind() == ErrorKind::NotFound => Reach::Nothing,
            Err(_) => Reach::Taken,
        }
    }

    fn remove(&mut self, path: &str) -> bool {
        self.rt.remove_file(path).is_ok()
    }

    fn make(&mut self) -> Option<OwnedFd> {
        self.rt.unix_socket().ok()
    }

    fn set_mode(&mut self, socket: &OwnedFd, mode: u32) -> bool {
        libc::fchmod(socket.as_raw_fd(), mode) == 0
    }

    fn bind(&mut self, socket: &OwnedFd, path: &str) -> bool {
        match SocketAddr::from_pathname(path) {
            Ok(address) => self.rt.bind_unix(socket.as_fd(), &address).is_ok(),
            Err(_) => false,
        }
    }

    fn listen(&mut self, socket: OwnedFd) -> Option<UnixListener> {
        if libc::net::listen(socket.as_raw_fd(), WAITING) < 0 {
            return None;
        }
        let listener = UnixListener::from(socket);
        match listener.set_nonblocking(true) {
            Ok(()) => Some(listener),
            Err(_) => None,
        }
    }
}

/// Frees a name: a stale socket is removed.
fn clear<L: LocalSockets>(sockets: &mut L, path: &str) -> bool
    ensures { Clears path.now (L.asked sockets.old) (L.asked sockets.new) result }
{
    match sockets.reach(path) {
        Reach::Nothing => true,
        Reach::Stale => sockets.remove(path),
        Reach::Taken => false,
    }
}

/// A socket bound to a free name. Its mode is set before it is bound.
fn named<L: LocalSockets>(sockets: &mut L, path: &str) -> Option<OwnedFd>
    ensures named { OnSome result
        (L.asked sockets.new ≡ with_calls (L.asked sockets.old) (named_calls path.now)) }
    ensures failed { IfNone result
        (IsNotNamed path.now (L.asked sockets.old) (L.asked sockets.new)) }
{
    let socket = sockets.make()?;
    if !sockets.set_mode(&socket, OWNER_ALONE) {
        return None;
    }
    if !sockets.bind(&socket, path) {
        return None;
    }
    Some(socket)
}

/// A socket that listens on a name. `None` if a program already listens there, if the name belongs
/// to something else, or if a system call fails.
pub fn bind<L: LocalSockets>(sockets: &mut L, path: &str) -> Option<UnixListener>
    ensures bound { OnSome result (IsBound path.now (L.asked sockets.old) (L.asked sockets.new)) }
    ensures failed { IfNone result
        (IsNotBound path.now (L.asked sockets.old) (L.asked sockets.new)) }
{
    if !clear(sockets, path) {
        return None;
    }
    let socket = named(sockets, path)?;
    sockets.listen(socket)
}
