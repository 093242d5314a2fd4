//! What a relay sleeps on.

ghost use Rattle.std.specs.Prelude.{◌≡◌, pos};
ghost use Rattle.macs_control.specs.Watching.{asks};

use libc::net::{POLLERR, POLLHUP, POLLIN, poll};
use libc::types::pollfd;
use std::os::fd::RawFd;

/// The number in place of a missing descriptor: the system ignores it.
pub const NO_SOCKET: RawFd = -1;

/// Asks whether a socket is readable.
fn readable(socket: RawFd) -> pollfd
    ensures { result ≡ asks socket }
{
    pollfd {
        fd: socket,
        events: POLLIN,
        revents: 0,
    }
}

/// Whether the other side of a socket has gone: the system then reports it as readable for good
/// (POSIX.1-2017, `poll`).
fn has_gone(answer: &pollfd) -> bool {
    answer.revents & (POLLHUP | POLLERR) != 0
}

/// The longest sleep while a keeper has gone, in milliseconds: a device call that waits for its
/// answer fails after it.
const WITHOUT_KEEPER: u16 = 1_000;

/// The longest sleep in milliseconds, in the system's type.
fn timeout(milliseconds: u16) -> i32
    ensures { result ≡ pos milliseconds }
{
    i32::from(milliseconds)
}

/// Waits until a socket is readable or has ended, for at most this many milliseconds. Returns
/// whether it is. If the call fails it is not.
pub(crate) fn wait_for(socket: RawFd, milliseconds: u16) -> bool {
    poll(&mut [readable(socket)], timeout(milliseconds)) > 0
}

/// The sockets of a relay: those of both wires, and its connection to a keeper of its disk, which is
/// -1 if there is none.
#[derive(Clone, Copy)]
pub struct Sockets {
    pub controlled: RawFd,
    pub common: RawFd,
    pub keeper: RawFd,
}

impl Sockets {
    ghost use Rattle.std.specs.Prelude.{◌≡◌, ◌∷◌, [], negsuc};
    ghost use Rattle.macs_control.specs.Watching.{asks};

    /// What the system is asked, for each of them.
    fn asked(&self) -> [pollfd; 3]
        ensures { result ≡ asks self.now.controlled ∷ asks self.now.common ∷ asks self.now.keeper
            ∷ [] }
    {
        [
            readable(self.controlled),
            readable(self.common),
            readable(self.keeper),
        ]
    }

    /// What the system is asked, for the keeper alone.
    fn keeper_asked(&self) -> [pollfd; 1]
        ensures { result ≡ asks self.now.keeper ∷ [] }
    {
        [readable(self.keeper)]
    }

    /// Sleeps until the keeper has sent something, for at most a millisecond.
    pub fn pause(&self) {
        let _ = poll(&mut self.keeper_asked(), timeout(1));
    }

    /// The same without a keeper.
    fn without_keeper(self) -> Sockets
        ensures { result ≡ record self { keeper = negsuc 0 } }
    {
        Sockets {
            keeper: NO_SOCKET,
            ..self
        }
    }

    /// Sleeps until one of them is readable, for at most this many milliseconds. What has already
    /// arrived ends the sleep at once (POSIX.1-2017, `poll`). A keeper that has gone ends no sleep,
    /// but limits it to a second. If the call fails there is no sleep.
    pub fn sleep(&self, milliseconds: u16) {
        let mut asked = self.asked();
        let _ = poll(&mut asked, timeout(milliseconds));
        if has_gone(&asked[2]) {
            let limit = milliseconds.min(WITHOUT_KEEPER);
            let _ = poll(&mut self.without_keeper().asked(), timeout(limit));
        }
    }
}

/// What is watched: the sockets of a relay, the listening socket, and those of four clients.
#[derive(Clone, Copy)]
pub struct Watch {
    pub sockets: Sockets,
    pub listener: RawFd,
    pub first: RawFd,
    pub second: RawFd,
    pub third: RawFd,
    pub fourth: RawFd,
}

/// Whether one of these is ready, or has failed.
fn is_any_found(asked: &[pollfd]) -> bool {
    asked.iter().any(|each| each.revents != 0)
}

impl Watch {
    ghost use Rattle.std.specs.Prelude.{◌≡◌, [], map, negsuc};
    ghost use Rattle.macs_control.specs.Watching.{asks, watched};

    /// What the system is asked, for each of these sockets.
    pub fn asked(&self) -> [pollfd; 8]
        ensures { result ≡ map asks (watched self.now) }
    {
        [
            readable(self.sockets.controlled),
            readable(self.sockets.common),
            readable(self.sockets.keeper),
            readable(self.listener),
            readable(self.first),
            readable(self.second),
            readable(self.third),
            readable(self.fourth),
        ]
    }

    /// The same without a keeper.
    fn without_keeper(self) -> Watch
        ensures { result ≡ record self { sockets = record self.sockets { keeper = negsuc 0 } } }
    {
        Watch {
            sockets: self.sockets.without_keeper(),
            ..self
        }
    }

    /// Sleeps until one of them is readable, as `Sockets::sleep` does. Returns whether the listening
    /// socket or one of a client is, or the call failed.
    pub fn sleep(&self, milliseconds: u16) -> bool {
        let mut asked = self.asked();
        let mut found = poll(&mut asked, timeout(milliseconds));
        if has_gone(&asked[2]) {
            asked = self.without_keeper().asked();
            found = poll(&mut asked, timeout(milliseconds.min(WITHOUT_KEEPER)));
        }
        found < 0 || is_any_found(&asked[3..])
    }
}
