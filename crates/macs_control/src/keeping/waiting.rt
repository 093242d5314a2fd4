//! Connections that can wait.

use crate::connection::{Connection, Taken};
use crate::watch::wait_for;
use std::io::{ErrorKind, Read, Write};
use std::os::fd::AsRawFd;
use std::os::unix::net::UnixStream;

/// How long a client waits for its keeper, in milliseconds: longer than any call of a device that
/// works takes.
const PATIENCE: u16 = 60_000;

/// A connection that can wait for what arrives. Tests replace it.
pub trait Waits: Connection {
    ghost use Rattle.std.specs.Prelude.{◌≡◌};

    /// Waits until octets have arrived, or until the other side has ended. Returns false if neither
    /// came in time, or if the connection failed.
    fn wait(&mut self) -> bool
        ensures { Self.link self.new ≡ Self.link self.old };
}

/// A non-blocking socket: a client waits for its keeper for at most a minute.
impl Waits for UnixStream {
    fn wait(&mut self) -> bool {
        wait_for(self.as_raw_fd(), PATIENCE)
    }
}

/// A blocking socket: a keeper waits for its client as long as it takes.
#[derive(Drop)]
pub struct ClientStream {
    pub stream: UnixStream,
}

impl Connection for ClientStream {
    fn take_into(&mut self, into: &mut [u8]) -> Taken {
        match self.stream.read(into) {
            Ok(0) => Taken::Ended,
            Ok(count) => Taken::Octets(count),
            Err(error) if error.kind() == ErrorKind::Interrupted => Taken::Nothing,
            Err(error) if error.kind() == ErrorKind::ConnectionReset => Taken::Ended,
            Err(_) => Taken::Gone,
        }
    }

    fn try_send(&mut self, octets: &[u8]) -> bool {
        self.stream.write_all(octets).is_ok()
    }
}

impl Waits for ClientStream {
    /// The next read waits.
    fn wait(&mut self) -> bool {
        true
    }
}
