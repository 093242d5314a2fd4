//! The peers of two wires: a frame of theirs waits at each wire as soon as it is bound, between what
//! strangers sent or not.

use std::alloc::Global;
use std::cell::Cell;
use std::io;
use std::io::ErrorKind;
use std::net::{Net, SocketAddr, UdpSocket};

/// Where the first wire is bound, and where the second one: with any port.
pub const OWN1: &str = "127.0.0.1:0";

pub const OWN2: &str = "127.0.0.2:0";

/// An address of loopback, with any port.
pub fn at(octet: u8) -> SocketAddr {
    SocketAddr::from(([127, 0, 0, octet], 0))
}

/// The peer of a wire, and the frame that it sends; it sends none where that has no octets.
#[derive(Drop)]
struct Peer {
    socket: UdpSocket,
    frame: Vec<u8>,
}

impl Peer {
    /// A peer that does not wait.
    fn new(net: &impl Net, frame: Vec<u8>) -> io::Result<Peer> {
        let socket = UdpSocket::bind(net, at(1))?;
        socket.set_nonblocking(true)?;
        Ok(Peer { socket, frame })
    }

    /// Whether this frame comes, where the peer is asked at most 1,000 times. A frame of no octets
    /// is none.
    fn has(&self, frame: &[u8]) -> bool {
        if frame.is_empty() {
            return true;
        }
        let mut room = [0; 2_048];
        for _ in 0..1_000_u32 {
            if let Ok((count, _)) = self.socket.recv_from(&mut room) {
                return &room[..count] == frame;
            }
        }
        false
    }
}

/// The peers of both wires.
#[derive(Drop)]
pub struct Peers {
    first: Peer,
    second: Peer,
    /// Whether the first wire is bound.
    is_begun: Cell<bool>,
    /// What sends datagrams in front of each frame, and how many. As many come after it.
    stranger: UdpSocket,
    strangers: u32,
}

impl Peers {
    /// Peers that send these frames, each between so many datagrams of a stranger and as many.
    pub fn new(
        net: &impl Net,
        first: Vec<u8>,
        second: Vec<u8>,
        strangers: u32,
    ) -> io::Result<Peers> {
        Ok(Peers {
            first: Peer::new(net, first)?,
            second: Peer::new(net, second)?,
            is_begun: Cell::new(false),
            stranger: UdpSocket::bind(net, at(1))?,
            strangers,
        })
    }

    /// Sends what a stranger does.
    fn disturb(&self, wire: SocketAddr) -> io::Result<()> {
        for _ in 0..self.strangers {
            self.stranger.send_to(b"stranger", wire)?;
        }
        Ok(())
    }

    /// Sends what is to wait at the wire of a peer: the frame, between what a stranger sends.
    fn send(&self, peer: &Peer, wire: SocketAddr) -> io::Result<()> {
        if peer.frame.is_empty() {
            return Ok(());
        }
        self.disturb(wire)?;
        peer.socket.send_to(&peer.frame, wire)?;
        self.disturb(wire)
    }

    /// Binds a wire, and has its peer's frame wait there. A wire that is bound out of its turn is
    /// refused.
    pub fn bind(&self, net: &impl Net, own: SocketAddr) -> io::Result<UdpSocket> {
        let is_first = own == at(1);
        if is_first == self.is_begun.get() {
            return Err(io::Error::from(ErrorKind::AddrNotAvailable));
        }
        self.is_begun.set(true);
        let wire = net.bind_udp(own)?;
        let peer = if is_first { &self.first } else { &self.second };
        self.send(peer, wire.local_addr()?)?;
        Ok(wire)
    }

    /// The addresses of the first peer and of the second, as texts.
    pub fn addresses(&self, alloc: Global) -> io::Result<(String, String)> {
        let first = self.first.socket.local_addr()?;
        let second = self.second.socket.local_addr()?;
        Ok((
            format!(in alloc; "{first}")?,
            format!(in alloc; "{second}")?,
        ))
    }

    /// Whether these frames have come to the first peer and to the second.
    pub fn have(&self, first: &[u8], second: &[u8]) -> bool {
        self.first.has(first) && self.second.has(second)
    }
}
