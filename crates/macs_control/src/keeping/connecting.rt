//! Where a keeper is found.

use crate::door::Watched;
use crate::keeping::waiting::Waits;
use std::net::Net;
use std::os::unix::net::UnixStream;

/// Where a keeper is found. Tests replace it.
///
/// If it is known which calls were made of it, each call does what its contract says. Nothing is
/// known about the local sockets of the operating system, nor about who listens there.
pub trait Keepers {
    ghost use Rattle.std.specs.Prelude.{◌≡◌, [], ◌∷◌, List, Option, None, option_map};
    ghost use Rattle.macs_control.specs.Calls.{with_calls};
    ghost use Rattle.macs_control.specs.KeptDisks.{Connects, KeeperCall};
    ghost use Rattle.macs_control.specs.Links.{line_of};

    /// The connection to a keeper.
    type Connection: Waits + Watched;

    /// The calls so far, in order, and the result of each, if known.
    ghost asked: { Self → Option (List KeeperCall) } = { λ _. None };

    /// Connects to the keeper that listens on this name. Of the connection's calls only `wait`
    /// waits. `None` if no keeper listens there.
    fn connect(&mut self, path: &str) -> Option<Self::Connection>
        ensures { asked self.new ≡ with_calls (asked self.old) (Connects path.now
            (option_map (line_of Self.Connection.link Self.Connection.steady) result) ∷ []) };
}

/// The keepers that listen on local sockets of the system.
#[derive(Clone, Copy)]
pub struct SystemKeepers<'a, N> {
    pub net: &'a N,
}

impl<N: Net> Keepers for SystemKeepers<'_, N> {
    type Connection = UnixStream;

    fn connect(&mut self, path: &str) -> Option<UnixStream> {
        let Ok(stream) = UnixStream::connect(self.net, path) else {
            return None;
        };
        match stream.set_nonblocking(true) {
            Ok(()) => Some(stream),
            Err(_) => None,
        }
    }
}
