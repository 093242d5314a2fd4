//! The control socket of a relay, and everything that an attended relay sleeps on.

ghost use Rattle.std.specs.Prelude.{◌≡◌, true, IfOk, IsErr, is_some, slice_get};
ghost use Rattle.macs_control.specs.ControlSockets.{HearsAll, HearsIf, gives_place, socket_of};
ghost use Rattle.macs_control.specs.Newcomers.{Greets, GreetsOne, LeavesNobody};
ghost use Rattle.macs_control.specs.Places.{places_of};

use crate::binding::{SystemSockets, bind};
use crate::connection::Connection;
use crate::door::{Door, Watched};
use crate::seats::{MAX_CLIENTS, Seats};
use crate::second::EachSecond;
use crate::signals::is_told_to_end;
use crate::watch::{NO_SOCKET, Sockets, Watch};
use macs_commands::requests::{Client, Clients, Heard};
use std::alloc::{AllocError, Global};
use std::net::Net;
use std::os::fd::RawFd;
use std::os::unix::net::{UnixListener, UnixStream};
use std::rt::{Clock, Files};

/// The longest sleep, in milliseconds, so that SIGTERM is noticed within a second.
const LONGEST_SLEEP: u16 = 1_000;

/// Why the control socket cannot be made.
#[derive(Clone, Copy, Debug, PartialEq, Eq)]
pub enum ControlFault {
    /// There is no memory for its clients.
    Memory,
    /// A program listens at its name, or the name belongs to another file, or a call of the system
    /// failed.
    Bind,
}

impl From<AllocError> for ControlFault {
    ghost use Rattle.std.specs.Prelude.{◌≡◌};
    ghost use Rattle.macs_control.specs.declared.control_socket.ControlFault.TheVariants.{Memory};

    ghost from_gives = { λ _ fault. fault ≡ Memory };

    fn from(_error: AllocError) -> ControlFault {
        ControlFault::Memory
    }
}

/// The clients of a relay, and its own sockets, on which it sleeps too.
#[derive(Drop)]
pub struct ControlSocket<'a, T, L = UnixListener, S = UnixStream> {
    rt: &'a T,
    alloc: Global,
    sockets: Sockets,
    limit: u16,
    door: Option<L>,
    seats: Seats<S>,
    second: EachSecond,
    /// A line was heard last: more may be waiting.
    has_heard: bool,
    /// The last sleep showed that no client is sending anything.
    is_still: bool,
}

/// Lets the next client in, and returns whether one waited.
fn greet_one<L: Door<S>, S: Connection>(door: &mut L, seats: &mut Seats<S>) -> bool
    ensures greets { GreetsOne (L.waiting door.old) seats.old result
        (L.waiting door.new) seats.new }
    ensures same { L.number door.new ≡ L.number door.old }
{
    let Some(connection) = door.let_in() else {
        return false;
    };
    seats.take_in(connection);
    true
}

/// Lets clients in, as long as a place is free.
fn greet<L: Door<S>, S: Connection>(door: &mut L, seats: &mut Seats<S>)
    ensures greets { Greets (L.waiting door.old) seats.old (L.waiting door.new) seats.new }
    ensures all { LeavesNobody (L.waiting door.new) seats.new }
    ensures same { L.number door.new ≡ L.number door.old }
{
    for _place in seats.len()..MAX_CLIENTS {
        if !greet_one(door, seats) {
            return;
        }
    }
}

/// Whether a newcomer may get the place of a client: no line was heard, four have places, and one
/// of them is idle.
fn gives_place<S: Connection>(heard: &Option<Heard>, seats: &Seats<S>) -> bool
    ensures { result ≡ gives_place heard.now seats.now }
{
    heard.is_none() && seats.len() >= MAX_CLIENTS && seats.has_room()
}

/// Hears the clients. If none of them sends a line, and one of them is idle, the next client that
/// connected gets its place.
fn hear<L: Door<S>, S: Connection>(door: &mut L, seats: &mut Seats<S>) -> Option<Heard>
    ensures hears { HearsAll S.link (L.waiting door.old) seats.old result (L.waiting door.new)
        seats.new }
    ensures same { L.number door.new ≡ L.number door.old }
{
    greet(door, seats);
    let heard = seats.hear();
    if gives_place(&heard, seats) {
        greet_one(door, seats);
    }
    heard
}

/// Hears the clients if there is a door, unless they are skipped.
fn hear_if<L: Door<S>, S: Connection>(
    is_skipped: bool,
    door: &mut Option<L>,
    seats: &mut Seats<S>,
) -> Option<Heard>
    ensures { HearsIf L.waiting L.number S.link is_skipped door.old seats.old result door.new
        seats.new }
{
    if is_skipped {
        return None;
    }
    match door {
        Some(door) => hear(door, seats),
        None => None,
    }
}

/// The socket of the client at a place; none if nobody is there, or the client sends no more.
fn socket_at<S: Connection + Watched>(seats: &Seats<S>, at: usize) -> RawFd
    ensures { result ≡ socket_of S.number (slice_get (places_of seats.now) at) }
{
    if at < seats.len() && !seats.has_ended(at) {
        seats.connection(at).descriptor()
    } else {
        NO_SOCKET
    }
}

/// The listener on a name, if a name is given.
fn listener_at<T: Files + Net>(
    rt: &T,
    path: Option<&str>,
) -> Result<Option<UnixListener>, ControlFault>
    ensures listener { IfOk result (λ listener. is_some listener ≡ is_some path.entry) }
    ensures named { IsErr result → is_some path.entry ≡ true }
{
    let Some(path) = path else {
        return Ok(None);
    };
    match bind(&mut SystemSockets { rt }, path) {
        Some(listener) => Ok(Some(listener)),
        None => Err(ControlFault::Bind),
    }
}

impl<'a, T: Files + Net + Clock> ControlSocket<'a, T> {
    ghost use Rattle.std.specs.Prelude.{◌≡◌, true, IfErr, IfOk, is_some};
    ghost use Rattle.macs_control.specs.ControlSockets.{IsUnused};

    /// Binds the control socket at `path`; without a path there are no clients. A sleep on it and
    /// on these sockets ends after `limit` milliseconds, at most 1,000. Fails with `Memory`, then,
    /// if there is a path, with `Bind`.
    pub fn bind(
        rt: &'a T,
        alloc: Global,
        path: Option<&str>,
        sockets: Sockets,
        limit: u16,
    ) -> Result<ControlSocket<'a, T>, ControlFault>
        ensures unused { IfOk result
            (λ socket. IsUnused (is_some path.entry) sockets limit socket) }
        ensures named { IfErr result
            (λ fault. fault ≡ ControlFault.Bind → is_some path.entry ≡ true) }
    {
        let seats = Seats::new(alloc)?;
        let door = listener_at(rt, path)?;
        Ok(ControlSocket::with_seats(rt, alloc, door, seats, sockets, limit))
    }
}

impl<'a, T: Files + Clock, L: Door<S>, S: Connection + Watched> ControlSocket<'a, T, L, S> {
    ghost use Rattle.std.specs.Prelude.{◌≡◌, IfOk, is_some};
    ghost use Rattle.macs_control.specs.ControlSockets.{IsUnused, greeting_of, watch_of};
    ghost use Rattle.macs_control.specs.Places.{IsEmpty, has_room, places_of, second_of};

    /// A control socket over a door; without one there are no clients. A sleep ends as `bind` says.
    pub fn over(
        rt: &'a T,
        alloc: Global,
        door: Option<L>,
        sockets: Sockets,
        limit: u16,
    ) -> Result<ControlSocket<'a, T, L, S>, AllocError>
        ensures unused { IfOk result (λ socket. IsUnused (is_some door) sockets limit socket) }
        ensures door { IfOk result (λ socket. socket.door ≡ door) }
    {
        let seats = Seats::new(alloc)?;
        Ok(ControlSocket::with_seats(rt, alloc, door, seats, sockets, limit))
    }

    /// The same with seats for its clients.
    fn with_seats(
        rt: &'a T,
        alloc: Global,
        door: Option<L>,
        seats: Seats<S>,
        sockets: Sockets,
        limit: u16,
    ) -> ControlSocket<'a, T, L, S>
        requires { IsEmpty seats }
        ensures unused { IsUnused (is_some door) sockets limit result }
        ensures door { result.door ≡ door }
    {
        ControlSocket {
            rt,
            alloc,
            sockets,
            limit,
            door,
            seats,
            second: EachSecond::new(),
            has_heard: false,
            is_still: false,
        }
    }

    /// The listening socket, or none: a client that finds no place waits there.
    fn greeting(&self) -> RawFd
        ensures { result ≡ greeting_of L.number self.now.door
            (has_room (second_of self.now.seats) (places_of self.now.seats)) }
    {
        match &self.door {
            Some(door) if self.seats.has_room() => door.descriptor(),
            Some(_) | None => NO_SOCKET,
        }
    }

    /// What is watched.
    fn watch(&self) -> Watch
        ensures { result ≡ watch_of L.number S.number self.now }
    {
        let seats = &self.seats;
        Watch {
            sockets: self.sockets,
            listener: self.greeting(),
            first: socket_at(seats, 0),
            second: socket_at(seats, 1),
            third: socket_at(seats, 2),
            fourth: socket_at(seats, 3),
        }
    }
}

impl<T: Files + Clock, L: Door<S>, S: Connection + Watched> Clients for ControlSocket<'_, T, L, S> {
    ghost use Rattle.macs_control.specs.ControlSockets.{Serves};

    ghost does = { Serves L.waiting L.number S.link };

    /// After a sleep that only a wire ended, no client is looked at.
    fn hear(&mut self) -> Option<Heard> {
        let heard = hear_if(self.is_still, &mut self.door, &mut self.seats);
        self.is_still = false;
        self.has_heard = heard.is_some();
        heard
    }

    fn say(&mut self, client: Client, text: &[u8]) {
        self.seats.say(client, text);
    }

    /// If a line was heard last, more may be waiting, and there is no sleep. While a newcomer would
    /// find no place, it is not known whether one is waiting: clients are looked at after each
    /// sleep.
    fn sleep(&mut self) {
        if self.has_heard {
            return;
        }
        let is_found = self.watch().sleep(self.limit.min(LONGEST_SLEEP));
        self.is_still = !is_found && self.seats.has_room();
    }

    fn is_ended(&mut self) -> bool {
        if !self.second.is_over(self.rt) {
            return false;
        }
        self.seats.pass_second();
        is_told_to_end(self.rt, self.alloc)
    }
}

/// Removes the name of a control socket at the end. If that fails, the next relay finds the stale
/// socket.
pub fn remove_name<T: Files>(rt: &T, path: &str) {
    let _ = rt.remove_file(path);
}
