//! The clients of a control socket.

ghost use Rattle.std.specs.Prelude.{◌≡◌, ◌≤◌, ◌<◌, length};
ghost use Rattle.std.specs.Vec.{vec_capacity};

use crate::connection::Connection;
use crate::finding::{at_client, at_idle};
use crate::place::Place;
use crate::seat::Hearing;
use macs_commands::requests::{Client, Heard};
use std::alloc::{AllocError, Global};

/// How many clients are served at a time.
pub const MAX_CLIENTS: usize = 4;

/// The clients of a control socket, at most four, the one that has been silent longest first. One
/// more takes the place of the first idle one, that is, one whose lines are all answered and that
/// has sent nothing while two seconds ended. If none is idle, it finds no place.
#[derive(Drop)]
pub struct Seats<S> {
    places: Vec<Place<S>>,
    last: u64,
    /// How many seconds have ended.
    second: u64,
    ghost few: { length places.items ≤ 4 },
    ghost room: { 4 ≤ vec_capacity places },
}

impl<S: Connection> Seats<S> {
    ghost use Rattle.std.specs.List.{remove};
    ghost use Rattle.std.specs.Prelude.{◌≡◌, ◌<◌, ◌+◌, ◌++◌, ◌∷◌, [], IfOk};
    ghost use Rattle.std.specs.Prelude.{IsFalse, IsTrue, Some, drop, false, length, option_map};
    ghost use Rattle.std.specs.Prelude.{slice_get, take, true};
    ghost use Rattle.macs_control.specs.Hearings.{HearsFirst, HearsOne, Says};
    ghost use Rattle.macs_control.specs.Newcomers.{TakesIn, is_open};
    ghost use Rattle.macs_control.specs.Places.{IsEmpty, KeepsCounts, PassesSecond, has_room};
    ghost use Rattle.macs_control.specs.Places.{left, places_of, seat_in, second_of, standing_in};
    ghost use Rattle.macs_control.specs.Seats.{connection_of, seat_count};
    ghost use Rattle.macs_control.specs.Standings.{has_ended};
    ghost use Rattle.macs_control.specs.declared.place.Place.{Place};

    /// No clients yet.
    pub fn new(alloc: Global) -> Result<Seats<S>, AllocError>
        ensures { IfOk result (λ seats. IsEmpty seats) }
    {
        let places = Vec::with_capacity(alloc, MAX_CLIENTS)?;
        Ok(Seats {
            places,
            last: 0,
            second: 0,
        })
    }

    /// How many clients there are.
    pub fn len(&self) -> usize
        ensures { result ≡ seat_count self.now }
    {
        self.places.len()
    }

    /// The connection of a client, by its place.
    pub fn connection(&self, at: usize) -> &S
        requires { at < seat_count self.now }
        ensures { Some result.now ≡ option_map (λ place. connection_of (seat_in place))
            (slice_get (places_of self.now) at) }
    {
        self.places[at].connection()
    }

    /// Whether the client at a place sends no more.
    pub fn has_ended(&self, at: usize) -> bool
        requires { at < seat_count self.now }
        ensures { Some result ≡ option_map (λ place. has_ended (standing_in place))
            (slice_get (places_of self.now) at) }
    {
        self.places[at].standing().has_ended()
    }

    /// Counts a second that ended.
    pub fn pass_second(&mut self)
        ensures { PassesSecond self.old self.new }
    {
        self.second = self.second.saturating_add(1);
    }

    /// Whether a newcomer finds a place.
    pub fn has_room(&self) -> bool
        ensures { result ≡ has_room (second_of self.now) (places_of self.now) }
    {
        self.places.len() < MAX_CLIENTS || at_idle(self.places.as_slice(), self.second).is_some()
    }

    /// Makes a place available, and returns whether one is. If four have one, the first idle client
    /// loses its own.
    fn make_room(&mut self) -> bool
        ensures room { result ≡ has_room (second_of self.old) (places_of self.old) }
        ensures full { IsFalse result → self.new ≡ self.old }
        ensures free { IsTrue result → length (places_of self.new) < 4 }
        ensures left { places_of self.new ≡ left (second_of self.old) (places_of self.old) }
        ensures counts { KeepsCounts self.old self.new }
    {
        if self.places.len() < MAX_CLIENTS {
            return true;
        }
        match at_idle(self.places.as_slice(), self.second) {
            Some(at) => {
                self.places.remove(at);
                true
            }
            None => false,
        }
    }

    /// Accepts one more client, in the last place and with the next number, if a place is
    /// available. Only the first idle client may lose its place. No number is given twice: after
    /// 2^64 - 1 clients no other one is accepted.
    pub fn take_in(&mut self, connection: S)
        ensures taken { is_open self.old ≡ true → TakesIn connection self.old self.new }
        ensures full { is_open self.old ≡ false → self.new ≡ self.old }
    {
        let Some(number) = self.last.checked_add(1) else {
            return;
        };
        if !self.make_room() {
            return;
        }
        self.last = number;
        let place = Place::new(Client(number), connection, self.second);
        let _ = self.places.push(place);
    }

    /// Moves the client at a place to the last one.
    fn move_last(&mut self, at: usize)
        requires { at < seat_count self.old }
        ensures moved { (place : Place S) × (Some place ≡ slice_get (places_of self.old) at)
            × (places_of self.new ≡ remove (places_of self.old) at ++ place ∷ []) }
        ensures counts { KeepsCounts self.old self.new }
    {
        let place = self.places.remove(at);
        let _ = self.places.push(place);
    }

    /// Hears the client at a place. One that sent a line moves to the last place, and one that is
    /// let go loses its own.
    fn hear_at(&mut self, at: usize) -> Option<Heard>
        requires { at < seat_count self.old }
        ensures heard { (place : Place S) × (Some place ≡ slice_get (places_of self.old) at)
            × HearsOne S.link (second_of self.old) (take at (places_of self.old)) place
            (drop (at + 1) (places_of self.old)) result (places_of self.new) }
        ensures counts { KeepsCounts self.old self.new }
    {
        let heard = self.places[at].hear(self.second);
        let place = &self.places[at];
        let client = place.client();
        let is_let_go = place.standing().is_let_go(&heard);
        match heard {
            Hearing::Line(line) => {
                self.move_last(at);
                Some(Heard { client, line })
            }
            Hearing::Silence | Hearing::Ended | Hearing::Gone => {
                if is_let_go {
                    self.places.remove(at);
                }
                None
            }
        }
    }

    /// Hears the clients, from the first place on, up to the first line.
    pub fn hear(&mut self) -> Option<Heard>
        ensures heard { HearsFirst S.link (second_of self.old) (places_of self.old) result
            (places_of self.new) }
        ensures counts { KeepsCounts self.old self.new }
    {
        let mut at = 0;
        for _place in 0..MAX_CLIENTS {
            let before = self.places.len();
            if at >= before {
                return None;
            }
            let heard = self.hear_at(at);
            if heard.is_some() {
                return heard;
            }
            if self.places.len() == before {
                at += 1;
            }
        }
        None
    }

    /// Sends a text to a client. The client loses its place if it does not take the whole text at
    /// once, or if it sends no more and no other answer is due to it. Nothing is sent to a client
    /// without a place.
    pub fn say(&mut self, client: Client, text: &[u8])
        ensures said { Says S.link (second_of self.old) client text.now (places_of self.old)
            (places_of self.new) }
        ensures counts { KeepsCounts self.old self.new }
    {
        if let Some(at) = at_client(self.places.as_slice(), client) {
            if !self.places[at].say(text, self.second) {
                self.places.remove(at);
            }
        }
    }
}
