//! Where clients connect.

ghost use Rattle.std.specs.Prelude.{List, Option, None};
ghost use Rattle.macs_control.specs.Doors.{LetsIn};

use crate::connection::Connection;
use std::os::fd::{AsRawFd, RawFd};
use std::os::unix::net::{UnixListener, UnixStream};

/// What may end a sleep. Tests replace it.
pub trait Watched: Drop {
    ghost use Rattle.std.specs.Prelude.{◌≡◌, ℤ};

    /// The number of its descriptor.
    ghost number: { Self → ℤ };

    /// Its descriptor, or -1 if it has none: it ends no sleep then.
    fn descriptor(&self) -> RawFd
        ensures { result ≡ number self.now };
}

/// Where clients connect. Tests replace it.
///
/// If it is known who waits there, each call does what its contract says. Nothing is known about a
/// socket of the operating system.
pub trait Door<S: Connection>: Watched {
    ghost use Rattle.std.specs.Prelude.{◌≡◌, List, Option, None};
    ghost use Rattle.macs_control.specs.Doors.{LetsIn};

    /// Who waits, if known, the one that came first at the front.
    ghost waiting: { Self → Option (List S) } = { λ _. None };

    /// Lets the next client in, if one waits. The call does not wait, and no call of the client
    /// does.
    fn let_in(&mut self) -> Option<S>
        ensures came { LetsIn (waiting self.old) result (waiting self.new) }
        ensures same { Self.number self.new ≡ Self.number self.old };
}

impl Watched for UnixStream {
    ghost use Rattle.std.specs.Net.Unix.{unix_stream_raw_fd};

    ghost number = { unix_stream_raw_fd };

    fn descriptor(&self) -> RawFd {
        self.as_raw_fd()
    }
}

impl Watched for UnixListener {
    ghost use Rattle.std.specs.Net.Unix.{unix_listener_raw_fd};

    ghost number = { unix_listener_raw_fd };

    fn descriptor(&self) -> RawFd {
        self.as_raw_fd()
    }
}

/// A non-blocking listener.
impl Door<UnixStream> for UnixListener {
    fn let_in(&mut self) -> Option<UnixStream> {
        let Ok((stream, _)) = self.accept() else {
            return None;
        };
        match stream.set_nonblocking(true) {
            Ok(()) => Some(stream),
            Err(_) => None,
        }
    }
}
