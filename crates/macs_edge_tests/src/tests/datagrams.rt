//! The wire over UDP, on loopback, with a socket of the test's own at its other end.

use super::wires::{FRAMES, filled, is_filled, receive, send};
use linked_list_allocator::LocalHeap;
use macs_edge::{BindFault, Got, UdpWire, WireFault};
use macs_frame::FrameBuf;
use std::alloc::Global;
use std::net::{Ipv6Addr, Net, SocketAddr, UdpSocket};
use std::process::Abort;

/// A wire, where it is bound, and the socket of its peer, which does not wait.
#[derive(Drop)]
struct Ends {
    wire: UdpWire<Global>,
    at: SocketAddr,
    peer: UdpSocket,
}

/// An address of IPv4 loopback, with any port.
fn loopback() -> SocketAddr {
    SocketAddr::from(([127_u8, 0, 0, 1], 0))
}

fn socket(rt: &(impl Abort + Net), at: SocketAddr) -> Option<UdpSocket> {
    let Ok(socket) = UdpSocket::bind(rt, at) else {
        return None;
    };
    assert!(rt; socket.set_nonblocking(true).is_ok());
    Some(socket)
}

/// Asks a socket at most 1,000 times for a datagram of so many octets, each of which is this one:
/// where it comes from.
fn arrived(
    rt: &impl Abort,
    socket: &UdpSocket,
    room: &mut [u8],
    octets: usize,
    octet: u8,
) -> SocketAddr {
    for _ in 0..1_000_u32 {
        if let Ok((count, from)) = socket.recv_from(room) {
            assert!(rt; is_filled(&room[..count], octets, octet));
            return from;
        }
    }
    panic!(rt; "no datagram came")
}

/// Asks a wire at most 1,000 times.
fn got(wire: &mut UdpWire<Global>, into: &mut FrameBuf) -> Result<Got, WireFault> {
    for _ in 0..1_000_u32 {
        let answer = receive(wire, into);
        if answer != Ok(Got::Nothing) {
            return answer;
        }
    }
    Ok(Got::Nothing)
}

/// A wire from an address with any port to a socket there, where that can be bound: where the wire
/// is bound, its first frame shows.
fn line(rt: &(impl Abort + Net), alloc: Global, at: SocketAddr) -> Option<Ends> {
    let peer = socket(rt, at)?;
    let there = peer.local_addr().expect(rt, "the address of the peer");
    let Ok(mut wire) = UdpWire::bind(rt, alloc, at, there) else {
        panic!(rt; "no wire");
    };
    assert!(rt; send(&mut wire, &[7; 60]) == Ok(()));
    let mut room = [0; 64];
    let at = arrived(rt, &peer, &mut room, 60, 7);
    Some(Ends { wire, at, peer })
}

/// The same on IPv4 loopback.
fn local_line(rt: &(impl Abort + Net), alloc: Global) -> Ends {
    match line(rt, alloc, loopback()) {
        Some(line) => line,
        None => panic!(rt; "no line"),
    }
}

/// Sends a frame of so many octets each way. What came of it at the wire is in the buffer.
fn exchanged(
    rt: &impl Abort,
    alloc: Global,
    line: &mut Ends,
    octets: usize,
    into: &mut FrameBuf,
) -> Result<Got, WireFault> {
    let frame = filled(rt, alloc, octets, 5);
    let mut room = filled(rt, alloc, 65_536, 0);
    assert!(rt; send(&mut line.wire, &frame) == Ok(()));
    assert!(rt; arrived(rt, &line.peer, &mut room, octets, 5) == line.at);
    assert!(rt; line.peer.send_to(&frame, line.at).is_ok());
    got(&mut line.wire, into)
}

/// Datagrams of each length, on IPv4 and, where it can be bound, on IPv6.
#[test]
fn datagrams_are_frames(rt: HostRuntime) {
    let mut into = FrameBuf::new();
    for (at, is_needed) in [
        (loopback(), true),
        (SocketAddr::from((Ipv6Addr::LOCALHOST, 0)), false),
    ] {
        let Some(mut line) = line(&rt, rt.alloc(), at) else {
            assert!(rt; !is_needed);
            continue;
        };
        for (octets, wanted) in FRAMES {
            let answer = exchanged(&rt, rt.alloc(), &mut line, octets, &mut into);
            assert!(rt; answer == Ok(wanted), "{octets} octets");
            let given = if wanted == Got::Frame { octets } else { 0 };
            assert!(rt; is_filled(&into, given, 5), "{octets} octets");
        }
    }
}

/// Nothing waits after a frame, and the buffer is emptied.
#[test]
fn nothing_is_told_at_once(rt: HostRuntime) {
    let mut line = local_line(&rt, rt.alloc());
    let mut into = FrameBuf::new();
    let answer = exchanged(&rt, rt.alloc(), &mut line, 60, &mut into);
    assert!(rt; answer == Ok(Got::Frame));
    assert!(rt; receive(&mut line.wire, &mut into) == Ok(Got::Nothing));
    assert!(rt; into.is_empty());
}

/// A datagram of another socket than the peer's does not come to the wire.
fn expect_lost(rt: &impl Abort, line: &mut Ends, stranger: &UdpSocket) {
    let mut into = FrameBuf::new();
    assert!(rt; stranger.send_to(&[1; 60], line.at).is_ok());
    assert!(rt; got(&mut line.wire, &mut into) == Ok(Got::Nothing));
    assert!(rt; into.is_empty());
}

/// One of the peer does, and nothing after it.
fn expect_got(rt: &impl Abort, line: &mut Ends) {
    let mut into = FrameBuf::new();
    assert!(rt; line.peer.send_to(&[2; 60], line.at).is_ok());
    assert!(rt; got(&mut line.wire, &mut into) == Ok(Got::Frame));
    assert!(rt; is_filled(&into, 60, 2));
    assert!(rt; got(&mut line.wire, &mut into) == Ok(Got::Nothing));
}

/// A datagram from another socket than the peer's, and one of the peer after it.
#[test]
fn a_strangers_datagram_is_lost(rt: HostRuntime) {
    let mut line = local_line(&rt, rt.alloc());
    let Some(stranger) = socket(&rt, loopback()) else {
        panic!(rt; "no socket");
    };
    expect_lost(&rt, &mut line, &stranger);
    expect_got(&rt, &mut line);
}

/// A frame that is longer than any datagram: it is refused, and the next one is sent.
#[test]
fn a_send_that_fails_is_told(rt: HostRuntime) {
    let mut line = local_line(&rt, rt.alloc());
    let frame = filled(&rt, rt.alloc(), 70_000, 3);
    let mut room = [0; 64];
    assert!(rt; send(&mut line.wire, &frame) == Err(WireFault::Send));
    assert!(rt; send(&mut line.wire, &[4; 60]) == Ok(()));
    let from = arrived(&rt, &line.peer, &mut room, 60, 4);
    assert!(rt; from == line.at);
}

#[test]
fn an_address_is_bound_once(rt: HostRuntime) {
    let line = local_line(&rt, rt.alloc());
    let again = UdpWire::bind(&rt, rt.alloc(), line.at, loopback());
    assert!(rt; matches!(again, Err(BindFault::Bind)));
}

/// Binds a wire in this heap and sends a frame from it. Why there is no wire, where there is none.
fn refused(
    rt: &(impl Abort + Net),
    heap: &LocalHeap,
    own: SocketAddr,
    peer: SocketAddr,
) -> Option<BindFault> {
    match UdpWire::bind(rt, heap, own, peer) {
        Ok(mut wire) => {
            assert!(rt; send(&mut wire, &[8; 60]) == Ok(()));
            None
        }
        Err(fault) => Some(fault),
    }
}

/// In a heap of so many octets a bind is refused so at an address that is bound, and so at a free
/// one.
fn expect_refused(
    rt: &(impl Abort + Net),
    alloc: Global,
    octets: usize,
    line: &Ends,
    [bound, free]: [Option<BindFault>; 2],
) {
    let Ok(heap) = LocalHeap::new(alloc, octets) else {
        panic!(rt; "no heap of {octets} octets");
    };
    let peer = line.peer.local_addr().expect(rt, "the address of the peer");
    assert!(rt;
        refused(rt, &heap, line.at, peer) == bound,
        "{octets} octets"
    );
    assert!(rt;
        refused(rt, &heap, loopback(), peer) == free,
        "{octets} octets"
    );
}

/// Heaps with room for less than the longest frame and one octet, and one that suffices: want of
/// memory comes first.
#[test]
fn a_bind_without_memory_is_refused(rt: HostRuntime) {
    let line = local_line(&rt, rt.alloc());
    let memory = [Some(BindFault::Memory); 2];
    expect_refused(&rt, rt.alloc(), 4_096, &line, memory);
    expect_refused(&rt, rt.alloc(), 9_216, &line, memory);
    let bound = [Some(BindFault::Bind), None];
    expect_refused(&rt, rt.alloc(), 16_384, &line, bound);
    let mut room = [0; 64];
    arrived(&rt, &line.peer, &mut room, 60, 8);
}
