//! A client and its connection, line by line.

ghost use Rattle.std.specs.Prelude.{◌≡◌, ◌≤◌, length};

use crate::connection::{Connection, Taken};
use macs_commands::requests::{Client, Inbox, Line, MAX_LINE};
use macs_commands::secrets::wipe;

/// The result of hearing a client.
#[derive(Drop)]
pub enum Hearing {
    /// Its next line, without its line feed.
    Line(Line),
    /// No line is whole yet.
    Silence,
    /// It sends no more, and each of its whole lines was heard.
    Ended,
    /// Its connection failed, or it sent 256 octets without a line feed.
    Gone,
}

/// A client with a connection, and the octets from it that do not form a line yet.
#[derive(Drop)]
pub struct Seat<S> {
    client: Client,
    connection: S,
    inbox: Inbox,
}

impl<S: Connection> Seat<S> {
    ghost use Rattle.std.specs.Prelude.{◌≡◌, [], true, false};
    ghost use Rattle.macs_control.specs.Links.{Fills, GivesOctets, Hears, HoldsNoLine, HoldsSame};
    ghost use Rattle.macs_control.specs.Links.{IsOneLine};
    ghost use Rattle.macs_control.specs.Seats.{client_of, connection_of, held_by};

    /// A client from which nothing was heard yet.
    pub fn new(client: Client, connection: S) -> Seat<S>
        ensures client { client_of result ≡ client }
        ensures connection { connection_of result ≡ connection }
        ensures held { held_by result ≡ [] }
    {
        Seat {
            client,
            connection,
            inbox: Inbox::new(),
        }
    }

    /// Its client.
    pub fn client(&self) -> Client
        ensures { result ≡ client_of self.now }
    {
        self.client
    }

    /// Its connection.
    pub fn connection(&self) -> &S
        ensures { result.now ≡ connection_of self.now }
    {
        &self.connection
    }

    /// Takes what arrived, as far as it fits.
    fn fill(&mut self) -> Taken
        ensures client { client_of self.new ≡ client_of self.old }
        ensures fills { Fills (held_by self.old) (S.link (connection_of self.old)) result
            (held_by self.new) (S.link (connection_of self.new)) }
        ensures same { HoldsSame result (held_by self.old) (held_by self.new) }
    {
        let room = self.inbox.room();
        if room == 0 {
            return Taken::Gone;
        }
        let mut octets = [0; MAX_LINE];
        let part = &mut octets[..room];
        let taken = self.connection.take_into(part);
        if let Taken::Octets(count) = taken {
            self.inbox.push(&part[..count]);
            wipe(part);
        }
        taken
    }

    /// Hears the client. If a whole line of it is held already, its connection is not read. A
    /// client that is gone is never heard again.
    pub fn hear(&mut self) -> Hearing
        ensures client { client_of self.new ≡ client_of self.old }
        ensures hears { Hears (held_by self.old) (S.link (connection_of self.old)) result
            (held_by self.new) (S.link (connection_of self.new)) }
        ensures whole { IsOneLine result }
        ensures none { HoldsNoLine result (held_by self.new) }
    {
        if let Some(line) = self.inbox.next_line() {
            return Hearing::Line(line);
        }
        match self.fill() {
            Taken::Octets(_) => match self.inbox.next_line() {
                Some(line) => Hearing::Line(line),
                None => Hearing::Silence,
            },
            Taken::Nothing => Hearing::Silence,
            Taken::Ended => Hearing::Ended,
            Taken::Gone => Hearing::Gone,
        }
    }

    /// Sends a text to the client, and returns whether it took all of it at once.
    pub fn try_send(&mut self, text: &[u8]) -> bool
        ensures client { client_of self.new ≡ client_of self.old }
        ensures held { held_by self.new ≡ held_by self.old }
        ensures given { GivesOctets (S.link (connection_of self.old))
            (S.link (connection_of self.new)) text.now result }
    {
        self.connection.try_send(text)
    }
}
