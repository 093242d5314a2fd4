//! Clients of a keeper.

use std::alloc::Global;
use std::cell::RefCell;
use std::io;
use std::io::{ErrorKind, Read, Write};
use std::net::{Net, Shutdown};
use std::os::unix::net::UnixStream;

/// A client of a keeper, its requests, and its connection, once it has one.
#[derive(Drop)]
pub struct Visitor {
    requests: Vec<u8>,
    stream: RefCell<Option<UnixStream>>,
}

/// All that comes over a connection. One that ends with requests unread is reset after that.
fn rest_of(mut stream: &UnixStream, alloc: Global) -> Vec<u8> {
    let mut octets = Vec::new(alloc);
    let _ = stream.read_to_end(&mut octets);
    octets
}

/// Whether a connection has ended, with nothing to read. It does not wait.
fn is_over(mut stream: &UnixStream) -> bool {
    if stream.set_nonblocking(true).is_err() {
        return false;
    }
    let is_over = match stream.read(&mut [0; 1]) {
        Ok(count) => count == 0,
        Err(error) => error.kind() == ErrorKind::ConnectionReset,
    };
    let _ = stream.set_nonblocking(false);
    is_over
}

impl Visitor {
    /// A client that will send these requests.
    pub fn new(requests: Vec<u8>) -> Visitor {
        Visitor {
            requests,
            stream: RefCell::new(None),
        }
    }

    /// Connects, sends its requests, and sends no more.
    pub fn come(&self, net: &impl Net, path: &str) -> io::Result<()> {
        let mut stream = UnixStream::connect(net, path)?;
        stream.write_all(self.requests.as_slice())?;
        stream.shutdown(Shutdown::Write)?;
        if let Ok(mut place) = self.stream.try_borrow_mut() {
            *place = Some(stream);
        }
        Ok(())
    }

    /// Whether it has a connection that has ended, with nothing to read.
    pub fn has_ended(&self) -> bool {
        match self.stream.try_borrow() {
            Ok(place) => match &*place {
                Some(stream) => is_over(stream),
                None => false,
            },
            Err(_) => false,
        }
    }

    /// All that came to it, once its keeper has ended. `None` if it has no connection.
    pub fn answered(&self, alloc: Global) -> Option<Vec<u8>> {
        match self.stream.try_borrow() {
            Ok(place) => match &*place {
                Some(stream) => Some(rest_of(stream, alloc)),
                None => None,
            },
            Err(_) => None,
        }
    }
}
