//! A program: a command that a power loss interrupts.

ghost use Rattle.std.specs.Prelude.{◌≡◌, IfSome, None};
ghost use Rattle.macs_theorem.specs.Examples.{WasShown};

use crate::asking::{Ask, Heard, Power, Request};
use crate::program::Program;
use macs_config::{Command, Identity};
use macs_disk::SectorDisk;
use macs_endpoint::Endpoint;
use macs_frame::An;

/// Formats a disk, and opens it while the power lasts for some device calls. It gives a command,
/// inside which the power is lost, and opens the disk again. It remembers whether it then saw a
/// transmit association at an AN.
#[derive(Drop)]
pub struct CutCommand {
    pub identity: Identity,
    pub calls: u64,
    pub install: Command,
    pub an: An,
    pub turn: u8,
    pub found: Option<bool>,
}

impl CutCommand {
    /// One that has not requested anything yet.
    pub fn new(identity: Identity, calls: u64, install: Command, an: An) -> CutCommand
        ensures { result.found ≡ None }
    {
        CutCommand {
            identity,
            calls,
            install,
            an,
            turn: 0,
            found: None,
        }
    }
}

impl Program for CutCommand {
    ghost keeps = { λ p events. IfSome p.found (λ there. WasShown events p.an there) };

    fn ask(&mut self) -> Option<Ask> {
        let turn = self.turn;
        self.turn = turn.saturating_add(1);
        match turn {
            0 => Some(Ask::Call(Request::Format(self.identity))),
            1 => Some(Ask::Power(Power::LastsFor(self.calls))),
            2 | 5 => Some(Ask::Call(Request::Open)),
            3 => Some(Ask::Power(Power::LostIn(Request::Command(self.install)))),
            4 => Some(Ask::Power(Power::Lost)),
            6 => Some(Ask::Show),
            _ => None,
        }
    }

    fn hear(&mut self, _heard: &Heard) {}

    fn see<D: SectorDisk>(&mut self, endpoint: &Endpoint<D>) {
        self.found = Some(endpoint.config().tx(self.an).is_some());
    }

    fn cut(&mut self) {}

    fn end(&mut self) {}
}
