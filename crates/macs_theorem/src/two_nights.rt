//! A program: a frame, a power loss, and another frame under the same key.

ghost use Rattle.std.specs.Prelude.{◌≡◌, ◌++◌, ℕ, List, [], ◌∷◌};
ghost use Rattle.macs_theorem.specs.Events.{Answers};
ghost use Rattle.macs_theorem.specs.Examples.{AreFirst, number_in, number_list, numbers_in};
ghost use Rattle.macs_theorem.specs.Examples.{numbers_of};
ghost use Rattle.macs_theorem.specs.Programs.{answer_of};

use crate::asking::{Ask, Heard, Power, Request};
use crate::program::Program;
use macs_config::{Command, Identity};
use macs_disk::SectorDisk;
use macs_endpoint::{Endpoint, ProtectFault};
use macs_frame::{FrameBuf, Pn};

/// Formats a disk, opens it, gives two commands and a plain frame. After a power loss it opens the
/// disk again, and gives the frame again. It remembers the packet numbers of the first two frames
/// that were written.
#[derive(Drop)]
pub struct TwoNights {
    pub identity: Identity,
    pub install: Command,
    pub select: Command,
    pub turn: u8,
    pub first: Option<Pn>,
    pub second: Option<Pn>,
}

impl TwoNights {
    /// One that has not requested anything yet.
    pub fn new(identity: Identity, install: Command, select: Command) -> TwoNights
        ensures { AreFirst result.first result.second [] }
    {
        TwoNights {
            identity,
            install,
            select,
            turn: 0,
            first: None,
            second: None,
        }
    }

    fn note(&mut self, pn: Pn)
        ensures { (numbers : List ℕ) → AreFirst self.old.first self.old.second numbers
            → AreFirst self.new.first self.new.second (numbers ++ pn ∷ []) }
    {
        if self.first.is_none() {
            self.first = Some(pn);
        } else if self.second.is_none() {
            self.second = Some(pn);
        }
    }
}

/// The packet number of a frame that was written.
fn number_of(heard: &Heard) -> Option<Pn>
    ensures { number_list result ≡ number_in (Answers (answer_of heard.now)) }
{
    match heard {
        Heard::Protected { result, .. } => number_if_ok(*result),
        _ => None,
    }
}

fn number_if_ok(written: Result<Pn, ProtectFault>) -> Option<Pn>
    ensures { number_list result ≡ numbers_of written }
{
    match written {
        Ok(pn) => Some(pn),
        Err(_) => None,
    }
}

impl Program for TwoNights {
    ghost keeps = { λ p events. AreFirst p.first p.second (numbers_in events) };

    fn ask(&mut self) -> Option<Ask> {
        let turn = self.turn;
        self.turn = turn.saturating_add(1);
        match turn {
            0 => Some(Ask::Call(Request::Format(self.identity))),
            1 | 7 => Some(Ask::Call(Request::Open)),
            2 => Some(Ask::Call(Request::Command(self.install))),
            3 => Some(Ask::Call(Request::Command(self.select))),
            4 | 8 => Some(Ask::Call(Request::Refill)),
            5 | 9 => Some(Ask::Call(Request::Protect(plain_frame()))),
            6 => Some(Ask::Power(Power::Lost)),
            10 => Some(Ask::Call(Request::Close)),
            _ => None,
        }
    }

    fn hear(&mut self, heard: &Heard) {
        match number_of(heard) {
            Some(pn) => self.note(pn),
            None => {}
        }
    }

    fn see<D: SectorDisk>(&mut self, _endpoint: &Endpoint<D>) {}

    fn cut(&mut self) {}

    fn end(&mut self) {}
}

/// A plain frame of 18 octets.
fn plain_frame() -> FrameBuf {
    let mut plain = FrameBuf::new();
    for _ in 0..18 {
        if plain.try_push(2).is_err() {
            break;
        }
    }
    plain
}
