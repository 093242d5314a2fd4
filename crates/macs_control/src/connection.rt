//! A connection that receives lines and sends answers.

ghost use Rattle.std.specs.Prelude.{◌≡◌, ◌<◌, ◌≤◌, length, true, false, Bool, Option, None};
ghost use Rattle.macs_control.specs.Links.{FindsMore, GivesOctets, IsAtMost, Link, TakesOctets};

use std::io::{ErrorKind, Read, Write};
use std::os::unix::net::UnixStream;

/// The result of a read from a connection.
#[derive(Clone, Copy, Debug, PartialEq, Eq)]
pub enum Taken {
    /// This many octets are at the front of the buffer.
    Octets(usize),
    /// No octet has arrived yet.
    Nothing,
    /// Everything that the other side sends has been taken.
    Ended,
    /// It failed.
    Gone,
}

/// A connection of a control socket. Tests replace it.
///
/// If it is known which octets arrive and are sent, each call does what its contract says. Nothing
/// is known about a socket of the operating system.
pub trait Connection: Drop {
    /// What arrived and was sent, if known.
    ghost link: { Self → Option Link } = { λ _. None };

    /// Whether it is known that each look with room for an octet finds one or the end: none fails,
    /// and none comes too early.
    ghost steady: { Self → Bool } = { λ _. false };

    /// Takes octets that arrived: as many as fit.
    fn take_into(&mut self, into: &mut [u8]) -> Taken
        ensures bound { IsAtMost result (length into.new) }
        ensures taken { TakesOctets (link self.old) (link self.new) into.new result }
        ensures steady { steady self.new ≡ steady self.old }
        ensures finds { steady self.old ≡ true → 0 < length into.new → FindsMore result };

    /// Sends octets, and returns whether all of them were taken at once.
    fn try_send(&mut self, octets: &[u8]) -> bool
        ensures given { GivesOctets (link self.old) (link self.new) octets.now result }
        ensures steady { steady self.new ≡ steady self.old };
}

/// A non-blocking socket: what a client does not take at once is not sent to it.
impl Connection for UnixStream {
    fn take_into(&mut self, into: &mut [u8]) -> Taken {
        match self.read(into) {
            Ok(0) => Taken::Ended,
            Ok(count) => Taken::Octets(count),
            Err(error) if error.kind() == ErrorKind::WouldBlock => Taken::Nothing,
            Err(error) if error.kind() == ErrorKind::Interrupted => Taken::Nothing,
            Err(_) => Taken::Gone,
        }
    }

    fn try_send(&mut self, octets: &[u8]) -> bool {
        match self.write(octets) {
            Ok(count) => count == octets.len(),
            Err(_) => false,
        }
    }
}
