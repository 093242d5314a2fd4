//! A client that has a place at a control socket.

ghost use Rattle.std.specs.Prelude.{◌≡◌};

use crate::connection::Connection;
use crate::ending::ends_answer;
use crate::seat::{Hearing, Seat};
use crate::standing::Standing;
use macs_commands::requests::Client;

/// A client with its connection and its state.
#[derive(Drop)]
pub struct Place<S> {
    seat: Seat<S>,
    standing: Standing,
}

impl<S: Connection> Place<S> {
    ghost use Rattle.std.specs.Prelude.{◌≡◌};
    ghost use Rattle.macs_control.specs.Hearings.{LooksAt, SaysTo};
    ghost use Rattle.macs_control.specs.Newcomers.{IsNew};
    ghost use Rattle.macs_control.specs.Places.{seat_in, standing_in};
    ghost use Rattle.macs_control.specs.Seats.{client_of, connection_of};

    /// A client that connected in this second, from which nothing was heard yet.
    pub fn new(client: Client, connection: S, now: u64) -> Place<S>
        ensures new { IsNew now client.0 result }
        ensures connection { connection_of (seat_in result) ≡ connection }
    {
        Place {
            seat: Seat::new(client, connection),
            standing: Standing::new(now),
        }
    }

    /// Its client.
    pub fn client(&self) -> Client
        ensures { result ≡ client_of (seat_in self.now) }
    {
        self.seat.client()
    }

    /// Its connection.
    pub fn connection(&self) -> &S
        ensures { result.now ≡ connection_of (seat_in self.now) }
    {
        self.seat.connection()
    }

    /// Its state.
    pub fn standing(&self) -> Standing
        ensures { result ≡ standing_in self.now }
    {
        self.standing
    }

    /// Hears the client, in this second.
    pub fn hear(&mut self, now: u64) -> Hearing
        ensures { LooksAt S.link now self.old result self.new }
    {
        let heard = self.seat.hear();
        self.standing = self.standing.after_hearing(&heard, now);
        heard
    }

    /// Sends a text to the client, in this second, and returns whether the client keeps its place:
    /// it does if it took all of the text at once, unless it sends no more and no other answer is
    /// due. A text that ends an answer is the answer to a line, or the last part of one.
    pub fn say(&mut self, text: &[u8], now: u64) -> bool
        ensures { SaysTo S.link now text.now self.old self.new result }
    {
        let is_whole = self.seat.try_send(text);
        if ends_answer(text) {
            self.standing = self.standing.after_answer(now);
        }
        is_whole && !self.standing.is_over()
    }
}
