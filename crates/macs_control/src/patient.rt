//! The connection of a client to the relay that it asks.

use crate::connection::{Connection, Taken};
use crate::local_address::address_with;
use libc::net::connect;
use os::errno;
use std::io::{self, Error, ErrorKind, Read, Write};
use std::net::Net;
use std::os::fd::AsRawFd;
use std::os::unix::net::UnixStream;
use std::time::Duration;

/// How long a call waits, in seconds: longer than any command takes.
const PATIENCE: u64 = 60;

/// A connection to a relay. Each call waits for at most a minute, and then fails.
#[derive(Drop)]
pub struct PatientStream {
    stream: UnixStream,
}

impl PatientStream {
    /// Connects to the relay that listens on this name. Fails with the error of the system if no
    /// relay does. If as many clients wait for that relay as the system allows, the call waits too,
    /// for at most a minute: the limit of a write is also that of a connection (socket(7)).
    pub fn connect<N: Net>(net: &N, path: &str) -> io::Result<PatientStream> {
        let Some(address) = address_with(path.as_bytes()) else {
            return Err(Error::from(ErrorKind::InvalidInput));
        };
        let stream = UnixStream::from(net.unix_socket()?);
        let patience = Some(Duration::from_secs(PATIENCE));
        stream.set_read_timeout(patience)?;
        stream.set_write_timeout(patience)?;
        let found = unsafe { connect(stream.as_raw_fd(), &address.octets, address.count) };
        if found < 0 {
            return Err(Error::from_raw_os_error(errno()));
        }
        Ok(PatientStream { stream })
    }
}

impl Connection for PatientStream {
    /// A relay that ends before it took all that was sent resets the connection. Linux reports that
    /// once everything that arrived was taken, and once alone: then the relay has ended.
    fn take_into(&mut self, into: &mut [u8]) -> Taken {
        match self.stream.read(into) {
            Ok(0) => Taken::Ended,
            Ok(count) => Taken::Octets(count),
            Err(error) if error.kind() == ErrorKind::Interrupted => Taken::Nothing,
            Err(error) if error.kind() == ErrorKind::ConnectionReset => Taken::Ended,
            Err(_) => Taken::Gone,
        }
    }

    fn try_send(&mut self, octets: &[u8]) -> bool {
        self.stream.write_all(octets).is_ok()
    }
}
