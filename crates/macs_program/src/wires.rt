//! The wires of a relay: two UDP sockets.

ghost use Rattle.std.specs.Prelude.{◌≡◌, ◌⊎◌, IfErr, IfOk};
ghost use Rattle.macs_commands.specs.InTurn.{InTurn};
ghost use Rattle.macs_edge.specs.Relaying.{empty_lane, relay_of};
ghost use Rattle.macs_edge.specs.UdpWires.{peer_of, udp_wire_state};
ghost use Rattle.macs_edge.specs.Wires.{WireState};
ghost use Rattle.macs_program.specs.Relaying.{IsSparedAt, RelaysAttended, SparesAt, new_wire};

use crate::pacing::left_out;
use crate::relaying::relay_frames;
use macs_cli::{Addresses, Failure, Pace, Status, Stream, WireAddresses};
use macs_control::{Sockets, ask_for_buffer};
use macs_disk::SectorDisk;
use macs_edge::{Desk, SparedSocket, UdpWire, Wire};
use macs_endpoint::Endpoint;
use std::alloc::Global;
use std::net::{Net, UdpSocket};
use std::os::fd::{AsRawFd, RawFd};

/// The wires of a relay.
#[derive(Drop)]
pub struct Wires {
    pub controlled: UdpWire<Global>,
    pub common: UdpWire<Global>,
}

/// A wire that skips some receives while it yields no frames.
pub type SparedWire = UdpWire<Global, SparedSocket<UdpSocket>>;

/// The same wire, after asking the system to buffer this many octets of datagrams that wait at it:
/// how many it buffers is noted.
fn with_buffer<N: Net>(net: &N, mut wire: UdpWire<Global>, octets: u32) -> UdpWire<Global>
    ensures state { ⟦<UdpWire<Global, UdpSocket> as Wire>⟧.state result
        ≡ ⟦<UdpWire<Global, UdpSocket> as Wire>⟧.state wire }
    ensures peer { peer_of result ≡ peer_of wire }
{
    match ask_for_buffer(net, wire.as_raw_fd(), octets) {
        Some(kept) => wire.note_buffer(kept),
        None => {}
    }
    wire
}

/// Binds a wire, and requests its buffer size if one is given. Fails first with `Memory` if there
/// is none for a frame of the wire; then with `Wire` if the own address cannot be bound.
fn bind_wire<N: Net>(
    net: &N,
    alloc: Global,
    wire: WireAddresses,
    buffer: Option<u32>,
) -> Result<UdpWire<Global>, Failure>
    ensures fresh { IfOk result
        (λ bound. ⟦<UdpWire<Global, UdpSocket> as Wire>⟧.state bound ≡ new_wire) }
    ensures peer { IfOk result (λ bound. peer_of bound ≡ wire.peer) }
    ensures failed { IfErr result
        (λ failure. (failure ≡ Failure.Memory) ⊎ (failure ≡ Failure.Wire)) }
{
    let bound = UdpWire::bind(net, alloc, wire.own, wire.peer)?;
    match buffer {
        Some(octets) => Ok(with_buffer(net, bound, octets)),
        None => Ok(bound),
    }
}

/// Binds the wires of a relay, from left to right. Fails as `bind_wire` does.
pub fn bind_wires<N: Net>(
    net: &N,
    alloc: Global,
    addresses: Addresses,
    buffer: Option<u32>,
) -> Result<Wires, Failure>
    ensures fresh { IfOk result
        (λ wires. (⟦<UdpWire<Global, UdpSocket> as Wire>⟧.state wires.controlled ≡ new_wire)
        × (⟦<UdpWire<Global, UdpSocket> as Wire>⟧.state wires.common ≡ new_wire)) }
    ensures peers { IfOk result (λ wires. (peer_of wires.controlled ≡ addresses.controlled.peer)
        × (peer_of wires.common ≡ addresses.common.peer)) }
    ensures failed { IfErr result
        (λ failure. (failure ≡ Failure.Memory) ⊎ (failure ≡ Failure.Wire)) }
{
    let controlled = bind_wire(net, alloc, addresses.controlled, buffer)?;
    let common = bind_wire(net, alloc, addresses.common, buffer)?;
    Ok(Wires { controlled, common })
}

/// The same wire, which skips as many receives as a relay with this pace.
fn spared(wire: UdpWire<Global>, pace: Pace) -> SparedWire
    ensures state { udp_wire_state result ≡ udp_wire_state wire }
    ensures spared { SparesAt pace wire result }
{
    wire.sparing(left_out(pace))
}

/// Relays frames between wires that skip as many receives as a relay with this pace, attended by a
/// desk, and prints what became of them.
fn relay_spared<D: SectorDisk, K: Desk<D, SparedWire, SparedWire>, W: Stream>(
    mut controlled: SparedWire,
    mut common: SparedWire,
    endpoint: &mut Endpoint<D>,
    desk: &mut K,
    pace: Pace,
    out: &mut W,
) -> Result<Status, Failure>
    requires controlled { IsSparedAt pace controlled }
    requires common { IsSparedAt pace common }
    ensures { (left right : WireState) × RelaysAttended D.disk
        (λ events. InTurn K.hears desk.old events desk.new) W.contents W.failed pace
        (relay_of endpoint.old (udp_wire_state controlled) (udp_wire_state common) empty_lane
        empty_lane) out.old result endpoint.new left right out.new }
{
    relay_frames(endpoint, &mut controlled, &mut common, desk, pace, out)
}

impl Wires {
    ghost use Rattle.std.specs.Prelude.{◌≡◌, IfSome};
    ghost use Rattle.macs_commands.specs.InTurn.{InTurn};
    ghost use Rattle.macs_edge.specs.Relaying.{empty_lane, relay_of};
    ghost use Rattle.macs_edge.specs.Wires.{WireState};
    ghost use Rattle.macs_program.specs.Relaying.{RelaysAttended, new_wire};

    /// Their sockets, and the connection to a keeper.
    pub fn sockets(&self, keeper: RawFd) -> Sockets
        ensures controlled { IfSome
            (⟦<UdpWire<Global, UdpSocket> as AsRawFd>⟧.raw_fd self.now.controlled)
            (λ socket. result.controlled ≡ socket) }
        ensures common { IfSome (⟦<UdpWire<Global, UdpSocket> as AsRawFd>⟧.raw_fd self.now.common)
            (λ socket. result.common ≡ socket) }
        ensures keeper { result.keeper ≡ keeper }
    {
        let controlled = self.controlled.as_raw_fd();
        let common = self.common.as_raw_fd();
        Sockets {
            controlled,
            common,
            keeper,
        }
    }

    /// Relays frames between them at this pace, attended by a desk; after a planned end the endpoint
    /// rests. Prints what became of them.
    pub fn relay<D: SectorDisk, K: Desk<D, SparedWire, SparedWire>, W: Stream>(
        self,
        endpoint: &mut Endpoint<D>,
        desk: &mut K,
        pace: Pace,
        out: &mut W,
    ) -> Result<Status, Failure>
        requires controlled { ⟦<UdpWire<Global, UdpSocket> as Wire>⟧.state self.controlled
            ≡ new_wire }
        requires common { ⟦<UdpWire<Global, UdpSocket> as Wire>⟧.state self.common ≡ new_wire }
        ensures { (controlled common : WireState) × RelaysAttended D.disk
            (λ events. InTurn K.hears desk.old events desk.new) W.contents W.failed pace
            (relay_of endpoint.old new_wire new_wire empty_lane empty_lane) out.old result
            endpoint.new controlled common out.new }
    {
        let Wires { controlled, common } = self;
        let controlled = spared(controlled, pace);
        let common = spared(common, pace);
        relay_spared(controlled, common, endpoint, desk, pace, out)
    }
}
