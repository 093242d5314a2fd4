//! A wire over UDP datagrams.

ghost use Rattle.std.specs.Prelude.{◌≡◌, ◌≢◌, ◌+◌, length, Ok, IfErr, IfOk};
ghost use Rattle.macs_edge.specs.Counts.{CountsStrangers};
ghost use Rattle.macs_edge.specs.WireDatagrams.{IsGiven, ReceivesDatagram, SendsDatagram};
ghost use Rattle.macs_edge.specs.Wires.{FillsBuffer, saturated};

use crate::counts::{Counted, WireCounts, is_too_long, takes_one};
use crate::datagrams::Datagrams;
use crate::spared_sockets::SparedSocket;
use crate::wire::{Got, Wire, WireFault};
use macs_frame::{FrameBuf, MAX_FRAME};
use std::alloc::{AllocError, Allocator};
use std::io::ErrorKind;
use std::net::{Net, SocketAddr, UdpSocket};
use std::os::fd::{AsRawFd, RawFd};

/// The longest frame, in octets, plus one: so a longer datagram is detected, regardless of its
/// length.
const ROOM: usize = MAX_FRAME + 1;

/// Why a wire cannot be made.
#[derive(Clone, Copy, Debug, PartialEq, Eq)]
pub enum BindFault {
    /// There is no memory for a frame.
    Memory,
    /// The own address cannot be bound, or the socket cannot be made non-blocking.
    Bind,
}

/// A wire over UDP (RFC 768), on IPv4 or IPv6: one datagram is one Ethernet frame without FCS. The
/// socket is non-blocking and bound only to the own address: a datagram from an address other than
/// the peer's is dropped and answered with `Nothing`. A receive or send that is interrupted has
/// failed, and is not retried. What a network delivers, and when, is not known: the wire counts
/// what it did, and its frames are unknown.
#[derive(Drop)]
pub struct UdpWire<A: Allocator, S = UdpSocket> {
    socket: S,
    peer: SocketAddr,
    room: Vec<u8, A>,
    strangers: u64,
    frames_taken: u64,
    frames_too_long: u64,
    frames_sent: u64,
    failed_receives: u64,
    failed_sends: u64,
    buffer: Option<u64>,
    ghost sized: { length room.items ≡ 9217 },
}

/// A buffer of `octets` octets.
fn room<A: Allocator>(alloc: A, octets: usize) -> Result<Vec<u8, A>, AllocError>
    ensures { IfOk result (λ room. length room.items ≡ octets) }
{
    vec![in alloc; 0; octets]
}

/// Takes a datagram of the peer as a frame. A datagram from any other address is dropped and
/// counted.
fn given(
    datagram: &[u8],
    from: SocketAddr,
    peer: SocketAddr,
    into: &mut FrameBuf,
    strangers: &mut u64,
) -> Got
    ensures given { IsGiven peer from datagram.now result into.new.items }
    ensures fills { FillsBuffer (Ok result) into.new.items }
    ensures stranger { from ≢ peer → strangers.new ≡ saturated (strangers.old + 1) }
    ensures peers { from ≡ peer → strangers.new ≡ strangers.old }
{
    into.clear();
    if from != peer {
        *strangers = strangers.saturating_add(1);
        return Got::Nothing;
    }
    match into.try_extend_from_slice(datagram) {
        Ok(()) => Got::Frame,
        Err(_) => Got::TooLong,
    }
}

/// The next datagram of a socket, as a wire with this peer answers it: nothing if none is waiting.
fn taken<S: Datagrams>(
    socket: &mut S,
    peer: SocketAddr,
    room: &mut [u8],
    into: &mut FrameBuf,
    strangers: &mut u64,
) -> Result<Got, WireFault>
    requires { length room.old ≡ 9217 }
    ensures datagram { ReceivesDatagram peer (S.socket socket.old) (S.socket socket.new) result
        into.new.items }
    ensures fills { FillsBuffer result into.new.items }
    ensures fault { IfErr result (λ fault. fault ≡ WireFault.Receive) }
    ensures strangers { CountsStrangers result (S.socket socket.old) strangers.old strangers.new }
{
    into.clear();
    match socket.take_from(room) {
        Ok(arrived) => Ok(given(&room[..arrived.count], arrived.from, peer, into, strangers)),
        Err(error) => {
            if error.kind() == ErrorKind::WouldBlock {
                return Ok(Got::Nothing);
            }
            Err(WireFault::Receive)
        }
    }
}

/// Sends a frame to this peer, and returns whether it was sent whole as one datagram.
fn gave<S: Datagrams>(socket: &mut S, peer: SocketAddr, frame: &[u8]) -> bool
    ensures { SendsDatagram peer (S.socket socket.old) (S.socket socket.new) frame.now result }
{
    match socket.give_to(frame, peer) {
        Ok(count) => count == frame.len(),
        Err(_) => false,
    }
}

impl<A: Allocator> UdpWire<A, UdpSocket> {
    ghost use Rattle.std.specs.Prelude.{◌≡◌, None, IfOk};
    ghost use Rattle.macs_edge.specs.Counts.{no_counts};
    ghost use Rattle.macs_edge.specs.UdpWires.{counts_of, peer_of};

    /// A wire from the own address to the peer's. Fails first with `Memory` if 9,217 octets cannot
    /// be allocated; then with `Bind`. Only this call allocates.
    pub fn bind<R: Net>(
        net: &R,
        alloc: A,
        own: SocketAddr,
        peer: SocketAddr,
    ) -> Result<UdpWire<A, UdpSocket>, BindFault>
        ensures state { IfOk result (λ wire. ⟦<UdpWire<A, UdpSocket> as Wire>⟧.state wire
            ≡ record { waiting = None; sent = None; failed_receives = 0; failed_sends = 0 }) }
        ensures peer { IfOk result (λ wire. peer_of wire ≡ peer) }
        ensures counts { IfOk result (λ wire. counts_of wire ≡ no_counts) }
    {
        let Ok(room) = room(alloc, ROOM) else {
            return Err(BindFault::Memory);
        };
        let Ok(socket) = UdpSocket::bind(net, own) else {
            return Err(BindFault::Bind);
        };
        if socket.set_nonblocking(true).is_err() {
            return Err(BindFault::Bind);
        }
        Ok(Self::with_room(socket, peer, room))
    }
}

impl<A: Allocator, S: Datagrams> UdpWire<A, S> {
    ghost use Rattle.std.specs.Prelude.{◌≡◌, length, None, IfErr, IfOk};
    ghost use Rattle.macs_edge.specs.Counts.{no_counts, with_buffer};
    ghost use Rattle.macs_edge.specs.SparedSockets.{over_socket};
    ghost use Rattle.macs_edge.specs.UdpWires.{counts_of, peer_of, socket_of, udp_wire_state};
    ghost use Rattle.macs_edge.specs.declared.udp_wire.BindFault.TheVariants.{Memory};

    /// A wire to the peer over a bound, non-blocking socket. Fails only with `Memory`, if 9,217
    /// octets cannot be allocated.
    pub fn over(alloc: A, socket: S, peer: SocketAddr) -> Result<UdpWire<A, S>, BindFault>
        ensures state { IfOk result (λ wire. ⟦<UdpWire<A, S> as Wire>⟧.state wire
            ≡ record { waiting = None; sent = None; failed_receives = 0; failed_sends = 0 }) }
        ensures peer { IfOk result (λ wire. peer_of wire ≡ peer) }
        ensures socket { IfOk result (λ wire. socket_of wire ≡ socket) }
        ensures memory { IfErr result (λ fault. fault ≡ Memory) }
        ensures counts { IfOk result (λ wire. counts_of wire ≡ no_counts) }
    {
        let Ok(room) = room(alloc, ROOM) else {
            return Err(BindFault::Memory);
        };
        Ok(UdpWire::with_room(socket, peer, room))
    }

    /// A wire before its first call.
    fn with_room(socket: S, peer: SocketAddr, room: Vec<u8, A>) -> UdpWire<A, S>
        requires { length room.items ≡ 9217 }
        ensures state { ⟦<UdpWire<A, S> as Wire>⟧.state result
            ≡ record { waiting = None; sent = None; failed_receives = 0; failed_sends = 0 } }
        ensures peer { peer_of result ≡ peer }
        ensures socket { socket_of result ≡ socket }
        ensures counts { counts_of result ≡ no_counts }
    {
        UdpWire {
            socket,
            peer,
            room,
            strangers: 0,
            frames_taken: 0,
            frames_too_long: 0,
            frames_sent: 0,
            failed_receives: 0,
            failed_sends: 0,
            buffer: None,
        }
    }

    /// Notes how many octets of waiting datagrams the system buffers for its socket. They are part
    /// of its counts from then on.
    pub fn note_buffer(&mut self, octets: u32)
        ensures state { udp_wire_state self.new ≡ udp_wire_state self.old }
        ensures peer { peer_of self.new ≡ peer_of self.old }
        ensures socket { socket_of self.new ≡ socket_of self.old }
        ensures counts { counts_of self.new ≡ with_buffer octets (counts_of self.old) }
    {
        self.buffer = Some(u64::from(octets));
    }

    /// The same wire over a socket that is asked less often while nothing arrives: at most this
    /// many receives in a row are skipped (`SparedSocket`).
    pub fn sparing(self, most: u8) -> UdpWire<A, SparedSocket<S>>
        ensures state { udp_wire_state result ≡ udp_wire_state self }
        ensures peer { peer_of result ≡ peer_of self }
        ensures socket { socket_of result ≡ over_socket (socket_of self) most }
        ensures counts { counts_of result ≡ counts_of self }
    {
        let UdpWire {
            socket,
            peer,
            room,
            strangers,
            frames_taken,
            frames_too_long,
            frames_sent,
            failed_receives,
            failed_sends,
            buffer,
            ..
        } = self;
        UdpWire {
            socket: SparedSocket::new(socket, most),
            peer,
            room,
            strangers,
            frames_taken,
            frames_too_long,
            frames_sent,
            failed_receives,
            failed_sends,
            buffer,
        }
    }

    /// Its counts.
    pub fn counts(&self) -> WireCounts
        ensures { result ≡ counts_of self.now }
    {
        WireCounts {
            strangers: self.strangers,
            taken: self.frames_taken,
            too_long: self.frames_too_long,
            sent: self.frames_sent,
            failed_receives: self.failed_receives,
            failed_sends: self.failed_sends,
            buffer: self.buffer,
        }
    }
}

impl<A: Allocator, S: Datagrams> Counted for UdpWire<A, S> {
    ghost use Rattle.macs_edge.specs.UdpWires.{counts_of};

    ghost wire_counts = { λ wire. counts_of wire };

    fn counts(&self) -> WireCounts {
        UdpWire::counts(self)
    }
}

impl<A: Allocator, S: AsRawFd> AsRawFd for UdpWire<A, S> {
    ghost use Rattle.macs_edge.specs.UdpWires.{socket_of};

    ghost raw_fd = { λ wire. S.raw_fd (socket_of wire) };

    /// The descriptor of its socket, to wait for datagrams. The wire still owns it.
    fn as_raw_fd(&self) -> RawFd {
        self.socket.as_raw_fd()
    }
}

impl<A: Allocator, S: Datagrams> Wire for UdpWire<A, S> {
    ghost use Rattle.std.specs.Prelude.{◌≡◌, is_ok, IfErr};
    ghost use Rattle.macs_edge.specs.Counts.{CountsReceive, counts_after_send};
    ghost use Rattle.macs_edge.specs.UdpWires.{counts_of, peer_of, socket_of, udp_wire_state};
    ghost use Rattle.macs_edge.specs.WireDatagrams.{ReceivesDatagram, SendsDatagram};
    ghost use Rattle.macs_edge.specs.Wires.{Receives, Sends};

    ghost state = { λ wire. udp_wire_state wire };

    fn receive(&mut self, into: &mut FrameBuf) -> Result<Got, WireFault>
        ensures receives { Receives (udp_wire_state self.old) result into.new.items
            (udp_wire_state self.new) }
        ensures datagram { ReceivesDatagram (peer_of self.old) (S.socket (socket_of self.old))
            (S.socket (socket_of self.new)) result into.new.items }
        ensures peer { peer_of self.new ≡ peer_of self.old }
        ensures counts { CountsReceive (S.socket (socket_of self.old)) result
            (counts_of self.old) (counts_of self.new) }
    {
        let answer = taken(
            &mut self.socket,
            self.peer,
            self.room.as_mut_slice(),
            into,
            &mut self.strangers,
        );
        if answer.is_err() {
            self.failed_receives = self.failed_receives.saturating_add(1);
        }
        if takes_one(&answer) {
            self.frames_taken = self.frames_taken.saturating_add(1);
        }
        if is_too_long(&answer) {
            self.frames_too_long = self.frames_too_long.saturating_add(1);
        }
        answer
    }

    fn send(&mut self, frame: &[u8]) -> Result<(), WireFault>
        ensures sends { Sends (udp_wire_state self.old) frame.now result (udp_wire_state self.new) }
        ensures datagram { SendsDatagram (peer_of self.old) (S.socket (socket_of self.old))
            (S.socket (socket_of self.new)) frame.now (is_ok result) }
        ensures fault { IfErr result (λ fault. fault ≡ WireFault.Send) }
        ensures peer { peer_of self.new ≡ peer_of self.old }
        ensures counts { counts_of self.new ≡ counts_after_send result (counts_of self.old) }
    {
        if gave(&mut self.socket, self.peer, frame) {
            self.frames_sent = self.frames_sent.saturating_add(1);
            return Ok(());
        }
        self.failed_sends = self.failed_sends.saturating_add(1);
        Err(WireFault::Send)
    }
}
