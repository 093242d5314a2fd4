//! A socket that is asked less often while nothing arrives.

ghost use Rattle.std.specs.IoError.{error_kind};
ghost use Rattle.macs_edge.specs.SparedSockets.{MayLeaveOut};

use crate::datagrams::{Arrived, Datagrams};
use std::io;
use std::io::ErrorKind;
use std::net::SocketAddr;

/// A socket around another, for a wire of a relay that sleeps until a datagram arrives. After a
/// receive that found nothing, a receive that follows a send is skipped, up to a maximum in a row:
/// it is answered as if it found nothing, without asking the inner socket. So a wire that yields
/// nothing, while the other one yields frames, is asked only in some of the turns.
///
/// A receive that follows no send is not skipped. After a turn that brought nothing there was no
/// send, so the wire is asked in the next turn; and a sleep in between ends at once when a datagram
/// arrives.
#[derive(Drop)]
pub struct SparedSocket<S> {
    socket: S,
    /// How many receives in a row are skipped at most.
    most: u8,
    /// How many more may be skipped.
    left: u8,
    /// Whether something was sent since the last receive.
    has_sent: bool,
}

/// How many receives may be skipped after one with this answer.
fn left_after(answer: &io::Result<Arrived>, most: u8) -> u8
    ensures { MayLeaveOut error_kind answer.now most result }
{
    match answer {
        Ok(_) => 0,
        Err(error) => {
            if error.kind() == ErrorKind::WouldBlock {
                most
            } else {
                0
            }
        }
    }
}

impl<S> SparedSocket<S> {
    ghost use Rattle.std.specs.Prelude.{◌≡◌, ◌↔◌, IsTrue};
    ghost use Rattle.macs_edge.specs.SparedSockets.{IsSpared, over_socket};

    /// A socket around this one, which skips at most this many receives in a row; with 0, none.
    pub(crate) fn new(socket: S, most: u8) -> SparedSocket<S>
        ensures { result ≡ over_socket socket most }
    {
        SparedSocket {
            socket,
            most,
            left: 0,
            has_sent: false,
        }
    }

    /// Whether the next receive is skipped.
    fn is_spared(&self) -> bool
        ensures { IsTrue result ↔ IsSpared self.now }
    {
        self.has_sent && self.left > 0
    }
}

impl<S: Datagrams> Datagrams for SparedSocket<S> {
    ghost use Rattle.std.specs.Prelude.{◌≡◌, ◌≤◌, length, IfOk};
    ghost use Rattle.std.specs.IoError.{error_kind};
    ghost use Rattle.macs_edge.specs.Datagrams.{GivesDatagram, TakesDatagram};
    ghost use Rattle.macs_edge.specs.SparedSockets.{AfterAsking, FindsNothing, IsSpared};
    ghost use Rattle.macs_edge.specs.SparedSockets.{AfterSending, after_sparing, behind};

    fn take_from(&mut self, into: &mut [u8]) -> io::Result<Arrived>
        ensures bound { IfOk result (λ arrived. arrived.count ≤ length into.new) }
        ensures spared { IsSpared self.old → FindsNothing error_kind result
            × (self.new ≡ after_sparing self.old) × (into.new ≡ into.old) }
        ensures asked { ¬ IsSpared self.old → AfterAsking error_kind result self.old self.new
            × TakesDatagram (S.socket (behind self.old)) (S.socket (behind self.new)) error_kind
            into.new result }
    {
        let is_spared = self.is_spared();
        self.has_sent = false;
        if is_spared {
            self.left = self.left.saturating_sub(1);
            return Err(io::Error::from(ErrorKind::WouldBlock));
        }
        let answer = self.socket.take_from(into);
        self.left = left_after(&answer, self.most);
        answer
    }

    fn give_to(&mut self, octets: &[u8], to: SocketAddr) -> io::Result<usize>
        ensures noted { AfterSending self.old self.new }
        ensures passed_on { GivesDatagram (S.socket (behind self.old)) (S.socket (behind self.new))
            octets.now to result }
    {
        self.has_sent = true;
        self.socket.give_to(octets, to)
    }
}
