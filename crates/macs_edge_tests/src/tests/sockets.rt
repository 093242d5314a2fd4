//! The wire over UDP, over a socket whose answers a test chooses.

use super::wires::{FRAMES, is_filled, receive, send};
use macs_edge::{Arrived, BindFault, Datagrams, Got, UdpWire, WireFault};
use macs_frame::FrameBuf;
use std::alloc::Global;
use std::io;
use std::io::ErrorKind;
use std::net::SocketAddr;
use std::process::Abort;

/// What a socket answers to each receive and to each send.
#[derive(Clone, Copy)]
enum Answer {
    /// To a receive: a datagram of so many octets, from the address that ends with this one. To a
    /// send: so many octets fewer than it was given.
    Octets(usize, u8),
    Failure(ErrorKind),
}

#[derive(Drop)]
struct Script {
    answer: Answer,
}

/// An address of IPv4 loopback that ends with this octet.
fn at(octet: u8) -> SocketAddr {
    SocketAddr::from(([127_u8, 0, 0, octet], 4_000))
}

impl Datagrams for Script {
    fn take_from(&mut self, into: &mut [u8]) -> io::Result<Arrived> {
        match self.answer {
            Answer::Octets(octets, from) => Ok(Arrived {
                count: octets.min(into.len()),
                from: at(from),
            }),
            Answer::Failure(kind) => Err(io::Error::from(kind)),
        }
    }

    fn give_to(&mut self, octets: &[u8], _to: SocketAddr) -> io::Result<usize> {
        match self.answer {
            Answer::Octets(fewer, _) => Ok(octets.len().saturating_sub(fewer)),
            Answer::Failure(kind) => Err(io::Error::from(kind)),
        }
    }
}

/// A wire to the address that ends with 1.
fn wire(rt: &impl Abort, alloc: Global, answer: Answer) -> UdpWire<Global, Script> {
    let made: Result<UdpWire<Global, Script>, BindFault> = UdpWire::over(
        alloc,
        Script { answer },
        at(1),
    );
    made.ok().expect(rt, "a wire")
}

/// What a receive comes to, and how many octets are in the buffer then.
const RECEIVES: [(Answer, Result<Got, WireFault>, usize); 5] = [
    (Answer::Octets(60, 2), Ok(Got::Nothing), 0),
    (Answer::Failure(ErrorKind::WouldBlock), Ok(Got::Nothing), 0),
    (
        Answer::Failure(ErrorKind::Interrupted),
        Err(WireFault::Receive),
        0,
    ),
    (
        Answer::Failure(ErrorKind::ConnectionRefused),
        Err(WireFault::Receive),
        0,
    ),
    (
        Answer::Failure(ErrorKind::OutOfMemory),
        Err(WireFault::Receive),
        0,
    ),
];

/// The octets of the wire's room are zeros.
fn expect_received(
    rt: &impl Abort,
    alloc: Global,
    answer: Answer,
    wanted: Result<Got, WireFault>,
    octets: usize,
) {
    let mut wire = wire(rt, alloc, answer);
    let mut into = FrameBuf::new();
    assert!(rt; receive(&mut wire, &mut into) == wanted, "{octets} octets");
    assert!(rt; is_filled(&into, octets, 0), "{octets} octets");
}

#[test]
fn each_answer_to_a_receive_is_reported(rt: HostRuntime) {
    for (octets, got) in FRAMES {
        let given = if got == Got::Frame { octets } else { 0 };
        expect_received(&rt, rt.alloc(), Answer::Octets(octets, 1), Ok(got), given);
    }
    for (answer, wanted, octets) in RECEIVES {
        expect_received(&rt, rt.alloc(), answer, wanted, octets);
    }
}

const SENDS: [(Answer, Result<(), WireFault>); 4] = [
    (Answer::Octets(0, 1), Ok(())),
    (Answer::Octets(1, 1), Err(WireFault::Send)),
    (
        Answer::Failure(ErrorKind::Interrupted),
        Err(WireFault::Send),
    ),
    (Answer::Failure(ErrorKind::WouldBlock), Err(WireFault::Send)),
];

#[test]
fn each_answer_to_a_send_is_reported(rt: HostRuntime) {
    for (answer, wanted) in SENDS {
        let mut wire = wire(&rt, rt.alloc(), answer);
        assert!(rt; send(&mut wire, &[7; 60]) == wanted);
    }
}
