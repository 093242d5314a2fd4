//! When a relay sleeps, and what a desk that notes its events is answered: their clauses are met.

ghost use Rattle.std.specs.Prelude.{◌≡◌, ◌++◌, ◌∷◌, [], Some, length};

use super::endpoints::{OWN, formatted, number_of, sending};
use super::relaying::push_plain;
use macs_config::Command;
use macs_disk::{MemDisk, SectorDisk};
use macs_edge::{
    CommandEnd, Desk, DeskEvent, Got, Idle, MemWire, Order, Unattended, Wire, WireFault, attend,
};
use macs_endpoint::{Endpoint, SubmitFault, Ticket};
use macs_frame::FrameBuf;
use std::alloc::Global;
use std::cell::Cell;
use std::process::Abort;

/// What was called, a digit for each call, the first in front.
type Notes = Cell<u64>;

fn note(notes: &Notes, digit: u64) {
    notes.set(notes.get().wrapping_mul(10).wrapping_add(digit));
}

/// A wire that notes its receives and sends by these digits.
#[derive(Drop)]
struct Noted<'a> {
    wire: MemWire<Global>,
    notes: &'a Notes,
    receives: u64,
    sends: u64,
}

impl Wire for Noted<'_> {
    ghost state = { λ it. ⟦<MemWire<Global> as Wire>⟧.state it.wire };

    fn receive(&mut self, into: &mut FrameBuf) -> Result<Got, WireFault> {
        note(self.notes, self.receives);
        self.wire.receive(into)
    }

    fn send(&mut self, frame: &[u8]) -> Result<(), WireFault> {
        note(self.notes, self.sends);
        self.wire.send(frame)
    }
}

/// What notes its sleeps as 9, and keeps them.
#[derive(Drop)]
struct Sleeper<'a, R: Abort> {
    rt: &'a R,
    notes: &'a Notes,
    slept: Vec<u8>,
}

impl<R: Abort> Idle for Sleeper<'_, R> {
    ghost sleeps = { λ it. Some (length it.slept.items) };

    fn idle(&mut self) {
        note(self.notes, 9);
        self.slept.push(9).expect(self.rt, "memory");
    }
}

/// Two frames in five turns: it sleeps at the end of each of the last three. In a turn the
/// controlled wire is asked (1), a frame is sent on the common one (4), and that is asked (2).
#[test]
fn it_sleeps_after_quiet_turns(rt: HostRuntime) {
    let notes = Cell::new(0);
    let mut plain = MemWire::new(rt.alloc());
    push_plain(&rt, rt.alloc(), &mut plain, 2);
    let mut controlled = Noted {
        wire: plain,
        notes: &notes,
        receives: 1,
        sends: 3,
    };
    let mut common = Noted {
        wire: MemWire::new(rt.alloc()),
        notes: &notes,
        receives: 2,
        sends: 4,
    };
    let idle = Sleeper {
        rt: &rt,
        notes: &notes,
        slept: Vec::new(rt.alloc()),
    };
    let mut nobody = Unattended { idle };
    let mut endpoint = sending(&rt, formatted(&rt, rt.alloc(), OWN, 64));
    let told = attend(&mut endpoint, &mut controlled, &mut common, &mut nobody, 5);
    assert!(rt; told.is_ok());
    assert!(rt; notes.get() == 142_142_129_129_129);
    assert!(rt; nobody.idle.slept.len() == 3);
}

/// It wants the end before the eighth turn, and keeps what passed between it and the relay.
#[derive(Drop)]
struct Told<'a, R: Abort> {
    rt: &'a R,
    asked: u64,
    events: Vec<DeskEvent>,
}

impl<R: Abort, D: SectorDisk, P: Wire, C: Wire> Desk<D, P, C> for Told<'_, R> {
    ghost hears = { λ old event new. new.events.items ≡ old.events.items ++ event ∷ [] };

    fn next(
        &mut self,
        _endpoint: &Endpoint<D>,
        _controlled: &P,
        _common: &C,
        was_quiet: bool,
    ) -> Order {
        let _held: Option<Command> = None; // Names the type that an order may hold.
        self.asked = self.asked.saturating_add(1);
        if self.asked == 8 {
            let event = DeskEvent::Wanted(was_quiet, Order::End);
            self.events.push(event).expect(self.rt, "memory");
            return Order::End;
        }
        let event = DeskEvent::Wanted(was_quiet, Order::Go);
        self.events.push(event).expect(self.rt, "memory");
        Order::Go
    }

    fn took(&mut self, answer: Result<Ticket, SubmitFault>) {
        let _held: Option<Command> = None;
        let event = DeskEvent::Took(answer);
        self.events.push(event).expect(self.rt, "memory");
    }

    fn answered(&mut self, ticket: Ticket, end: CommandEnd) {
        let _held: Option<Command> = None;
        let event = DeskEvent::Answered(ticket, end);
        self.events.push(event).expect(self.rt, "memory");
    }

    fn rest(&mut self) {
        let _held: Option<Command> = None;
        self.events
            .push(DeskEvent::Rested)
            .expect(self.rt, "memory");
    }
}

/// An event as a letter: `q` and `g` for an order after a quiet turn and after another, `k` for a
/// command that is kept, `f` for one that has failed.
fn letter(event: &DeskEvent) -> char {
    match event {
        DeskEvent::Wanted(true, _) => 'q',
        DeskEvent::Wanted(false, _) => 'g',
        DeskEvent::Answered(_, CommandEnd::Done(Ok(()))) => 'k',
        DeskEvent::Answered(_, CommandEnd::Failed) => 'f',
        _ => '?',
    }
}

fn letters(rt: &impl Abort, alloc: Global, events: &[DeskEvent]) -> String {
    let mut text = String::new(alloc);
    for event in events {
        text.push(letter(event)).expect(rt, "memory");
    }
    text
}

fn submit<D: SectorDisk>(rt: &impl Abort, endpoint: &mut Endpoint<D>, command: Command) {
    assert!(rt; endpoint.submit(command).is_ok());
}

/// An endpoint with two commands that wait.
fn with_two_commands(rt: &impl Abort, alloc: Global) -> Endpoint<MemDisk> {
    let mut endpoint = sending(rt, formatted(rt, alloc, OWN, 64));
    let an = number_of(rt, 0);
    submit(rt, &mut endpoint, Command::TxUse { an });
    submit(rt, &mut endpoint, Command::TxUse { an });
    endpoint
}

/// Of two commands the first is kept in four turns, and the second is under way at the end.
#[test]
fn a_desk_is_told_in_order(rt: HostRuntime) {
    let mut desk = Told {
        rt: &rt,
        asked: 0,
        events: Vec::new(rt.alloc()),
    };
    let mut controlled = MemWire::new(rt.alloc());
    let mut common = MemWire::new(rt.alloc());
    let mut endpoint = with_two_commands(&rt, rt.alloc());
    let told = attend(&mut endpoint, &mut controlled, &mut common, &mut desk, 20);
    assert!(rt; told.is_ok());
    let text = letters(&rt, rt.alloc(), desk.events.as_slice());
    assert!(rt; text.as_str() == "ggggkggggf");
}
