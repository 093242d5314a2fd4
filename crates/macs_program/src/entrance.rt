//! The socket of a keeper, where its one client comes in.

use macs_control::keeping::{ClientStream, Waits};
use macs_control::{Notifier, SystemSockets, bind, remove_name};
use std::alloc::Global;
use std::net::Net;
use std::os::unix::net::UnixListener;
use std::rt::{Env, Files};

/// The socket of a keeper. Tests replace it.
///
/// If it is known which calls were made of it, each call does what its contract says. Nothing is
/// known about a socket of the operating system, nor about who connects to it.
pub trait Entrance {
    ghost use Rattle.std.specs.Prelude.{◌≡◌, [], ◌∷◌, List, Option, None, option_map};
    ghost use Rattle.macs_control.specs.Calls.{with_calls};
    ghost use Rattle.macs_control.specs.Links.{line_of};
    ghost use Rattle.macs_program.specs.Keeping.{Binds, Closes, EntranceCall, LetsIn, Notifies};

    /// The connection of a client.
    type Client: Waits;

    /// The calls so far, in order, and the result of each, if known.
    ghost asked: { Self → Option (List EntranceCall) } = { λ _. None };

    /// Binds the socket to a name, and makes it listen. Returns whether that succeeded.
    fn bind(&mut self, path: &str) -> bool
        ensures { asked self.new ≡ with_calls (asked self.old) (Binds path.now result ∷ []) };

    /// Notifies the program's parent that a client can connect.
    fn notify(&mut self)
        ensures { asked self.new ≡ with_calls (asked self.old) (Notifies ∷ []) };

    /// Lets a client in, and waits for it as long as it takes. `None` if nobody can be waited for.
    fn let_in(&mut self) -> Option<Self::Client>
        ensures { asked self.new
            ≡ with_calls (asked self.old) (LetsIn
            (option_map (line_of Self.Client.link Self.Client.steady) result) ∷ []) };

    /// Removes the name, and stops listening: whoever waits there is refused.
    fn close(&mut self, path: &str)
        ensures { asked self.new ≡ with_calls (asked self.old) (Closes path.now ∷ []) };
}

/// A local socket of the system, bound as a control socket is: only the owner of the program can
/// connect.
#[derive(Drop)]
pub struct SystemEntrance<'a, T> {
    rt: &'a T,
    alloc: Global,
    listener: Option<UnixListener>,
}

impl<'a, T> SystemEntrance<'a, T> {
    /// One that is not bound yet.
    pub fn new(rt: &'a T, alloc: Global) -> SystemEntrance<'a, T> {
        SystemEntrance {
            rt,
            alloc,
            listener: None,
        }
    }
}

/// Waits for a client of a listener.
fn next_client(listener: &UnixListener) -> Option<ClientStream> {
    listener.set_nonblocking(false).ok()?;
    let (stream, _) = listener.accept().ok()?;
    Some(ClientStream { stream })
}

impl<T: Files + Net + Env> Entrance for SystemEntrance<'_, T> {
    type Client = ClientStream;

    fn bind(&mut self, path: &str) -> bool {
        self.listener = bind(&mut SystemSockets { rt: self.rt }, path);
        self.listener.is_some()
    }

    fn notify(&mut self) {
        Notifier::of_environment(self.rt, self.alloc).ready();
    }

    fn let_in(&mut self) -> Option<ClientStream> {
        match &self.listener {
            Some(listener) => next_client(listener),
            None => None,
        }
    }

    /// The name goes first, while it is certainly that of this socket.
    fn close(&mut self, path: &str) {
        remove_name(self.rt, path);
        self.listener = None;
    }
}
