//! What a UDP wire needs from its socket.

ghost use Rattle.std.specs.Prelude.{◌≤◌, length, Option, None, IfOk};
ghost use Rattle.std.specs.IoError.{error_kind};
ghost use Rattle.macs_edge.specs.Datagrams.{GivesDatagram, SocketState, TakesDatagram};

use std::io;
use std::net::{SocketAddr, UdpSocket};

/// A datagram that was taken.
#[derive(Clone, Copy)]
pub struct Arrived {
    /// How many of its octets are at the front of the buffer: all, or as many as fit.
    pub count: usize,
    /// Where it came from.
    pub from: SocketAddr,
}

/// A non-blocking socket, as a wire uses it. Tests replace it with sockets whose calls fail.
///
/// If it is known which datagrams it gives and sends, each of its calls does what its contract
/// says. Nothing is known about a socket of the operating system.
pub trait Datagrams: Drop {
    /// Its datagrams and its failed calls, if known.
    ghost socket: { Self → Option SocketState } = { λ _. None };

    /// Takes the next datagram: as many of its octets as fit, and the rest is lost. Fails with
    /// `WouldBlock` if none is waiting.
    fn take_from(&mut self, into: &mut [u8]) -> io::Result<Arrived>
        ensures bound { IfOk result (λ arrived. arrived.count ≤ length into.new) }
        ensures taken { TakesDatagram (socket self.old) (socket self.new) error_kind
            into.new result };

    /// Sends octets to an address as one datagram, and returns how many octets were sent.
    fn give_to(&mut self, octets: &[u8], to: SocketAddr) -> io::Result<usize>
        ensures given { GivesDatagram (socket self.old) (socket self.new) octets.now to result };
}

impl Datagrams for UdpSocket {
    fn take_from(&mut self, into: &mut [u8]) -> io::Result<Arrived> {
        let (count, from) = self.recv_from(into)?;
        Ok(Arrived { count, from })
    }

    fn give_to(&mut self, octets: &[u8], to: SocketAddr) -> io::Result<usize> {
        self.send_to(octets, to)
    }
}
