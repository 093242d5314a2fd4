//! The addresses of the wires that `relay` joins.

ghost use Rattle.std.specs.Prelude.{◌≡◌, ◌↔◌, ◌⊎◌, IfErr, IfOk, IfSome, Err, None};
ghost use Rattle.std.specs.Net.Grammar.{IsSocketText};
ghost use Rattle.std.specs.declared.net.SocketAddr.{SocketAddr};
ghost use Rattle.macs_fields.specs.First.{IsFirst};
ghost use Rattle.macs_cli.specs.Addresses.{AddressFaultHolds, SpellsEnds, SpellsNone};
ghost use Rattle.macs_cli.specs.Addresses.{address_faults};

use crate::WireEnds;
use std::net::SocketAddr;

/// Which word is not an address, in the order in which they are checked.
#[derive(Clone, Copy)]
pub enum AddressFault {
    Own1,
    Peer1,
    Own2,
    Peer2,
}

impl AddressFault {
    ghost use Rattle.std.specs.Prelude.{◌≡◌};
    ghost use Rattle.macs_cli.specs.Failing.{address_fault_text};

    /// The program's message.
    pub fn text(self) -> &'static str
        ensures { result.now ≡ address_fault_text self }
    {
        match self {
            AddressFault::Own1 => "OWN1 is not an address and a port",
            AddressFault::Peer1 => "PEER1 is not an address and a port",
            AddressFault::Own2 => "OWN2 is not an address and a port",
            AddressFault::Peer2 => "PEER2 is not an address and a port",
        }
    }
}

/// The addresses of a wire.
#[derive(Clone, Copy)]
pub struct WireAddresses {
    /// The address it is bound to.
    pub own: SocketAddr,
    /// The peer address of its datagrams.
    pub peer: SocketAddr,
}

/// The addresses of the two wires.
#[derive(Clone, Copy)]
pub struct Addresses {
    pub controlled: WireAddresses,
    pub common: WireAddresses,
}

/// Parses an address and port.
fn address_of(text: &str) -> Option<SocketAddr>
    ensures read { IfSome result (IsSocketText text.now) }
    ensures none { result ≡ None → SpellsNone text.now }
{
    text.parse().ok()
}

/// The addresses of the two ends of a wire, or the fault given for the first text that is not an
/// address and port.
fn wire_of(
    ends: WireEnds,
    own_fault: AddressFault,
    peer_fault: AddressFault,
) -> Result<WireAddresses, AddressFault>
    ensures spelled { IfOk result (SpellsEnds ends.entry) }
    ensures fault { IfErr result (λ fault. (SpellsNone ends.entry.own.now × (fault ≡ own_fault))
        ⊎ ((own : SocketAddr) × IsSocketText ends.entry.own.now own
        × SpellsNone ends.entry.peer.now × (fault ≡ peer_fault))) }
{
    let Some(own) = address_of(ends.own) else {
        return Err(own_fault);
    };
    let Some(peer) = address_of(ends.peer) else {
        return Err(peer_fault);
    };
    Ok(WireAddresses { own, peer })
}

/// The addresses of both wires. Fails with the first of `Own1`, `Peer1`, `Own2` and `Peer2` whose
/// text is not an address and port.
pub fn addresses_of(controlled: WireEnds, common: WireEnds) -> Result<Addresses, AddressFault>
    ensures controlled { IfOk result
        (λ addresses. SpellsEnds controlled.entry addresses.controlled) }
    ensures common { IfOk result (λ addresses. SpellsEnds common.entry addresses.common) }
    ensures fault { (fault : AddressFault) → (result ≡ Err fault)
        ↔ IsFirst (AddressFaultHolds controlled.entry common.entry) address_faults fault }
{
    let first = wire_of(controlled, AddressFault::Own1, AddressFault::Peer1)?;
    let second = wire_of(common, AddressFault::Own2, AddressFault::Peer2)?;
    Ok(Addresses {
        controlled: first,
        common: second,
    })
}
