//! A wire that makes some calls fail.

ghost use Rattle.std.specs.Prelude.{◌≡◌, ◌↔◌, ◌+◌, [], if◌then◌else◌, IsTrue, Err};
ghost use Rattle.macs_edge.specs.FaultWires.{CallsValue, FailsNext, FaultWireValue};
ghost use Rattle.macs_edge.specs.FaultWires.{asked_once_more, failed_among, fault_wire_state};
ghost use Rattle.macs_edge.specs.Wires.{Receives, Sends};

use crate::counts::{Counted, WireCounts};
use crate::wire::{Got, Wire, WireFault};
use macs_frame::FrameBuf;
use std::marker::Model;

/// The calls of one kind: which of them fails, and how many were made.
#[derive(Drop)]
struct Calls {
    /// Counting from 1; with 0 none fails.
    fails_at: u64,
    /// It saturates at 2^64 - 1.
    asked: u64,
}

impl Model for Calls {
    ghost Value = { CallsValue };

    ghost view = { λ calls. record { fails_at = calls.fails_at; asked = calls.asked } };
}

impl Calls {
    fn new(fails_at: u64) -> Calls
        ensures { result ≡ record { fails_at = fails_at; asked = 0 } }
    {
        Calls { fails_at, asked: 0 }
    }

    /// Counts a call, and returns whether it is the one that fails. A saturated counter does not
    /// advance, so the call with the greatest number fails only once.
    fn next_fails(&mut self) -> bool
        ensures asked { self.new ≡ asked_once_more self.old }
        ensures fails { IsTrue result ↔ FailsNext self.old }
        ensures failed { failed_among self.new ≡ failed_among self.old + (if result then 1 else 0) }
    {
        let fails = self.asked.checked_add(1) == Some(self.fails_at);
        self.asked = self.asked.saturating_add(1);
        fails
    }

    /// How many of the calls made failed: one, or none.
    fn failed(&self) -> u64
        ensures { result ≡ failed_among self.now }
    {
        if 0 < self.fails_at && self.fails_at <= self.asked {
            1
        } else {
            0
        }
    }
}

/// A wire around another. It makes the receive and the send with the numbers given to `new` fail,
/// and passes each other call to the inner wire. A call that it makes fail does not reach the inner
/// wire, and is counted with the inner wire's failed calls.
#[derive(Drop)]
pub struct FaultWire<W> {
    wire: W,
    receives: Calls,
    sends: Calls,
}

impl<W> Model for FaultWire<W> {
    ghost Value = { FaultWireValue W };

    ghost view = { λ front.
        record { inner = front.wire; receives = front.receives; sends = front.sends } };
}

impl<W: Wire> FaultWire<W> {
    /// A wire whose receive and send with these numbers fail, counting from 1; with 0 none fails.
    pub fn new(wire: W, receive_at: u64, send_at: u64) -> Self
        ensures { result ≡ record {
          inner = wire;
          receives = record { fails_at = receive_at; asked = 0 };
          sends = record { fails_at = send_at; asked = 0 };
        } }
    {
        FaultWire {
            wire,
            receives: Calls::new(receive_at),
            sends: Calls::new(send_at),
        }
    }

    /// The inner wire.
    pub fn inner(&self) -> &W
        ensures { result.now ≡ self.now.inner }
    {
        &self.wire
    }

    /// The inner wire.
    pub fn into_inner(self) -> W
        ensures { result ≡ self.inner }
    {
        let FaultWire { wire, .. } = self;
        wire
    }
}

impl<W: Counted> Counted for FaultWire<W> {
    ghost use Rattle.macs_edge.specs.FaultWires.{fault_wire_counts};

    ghost wire_counts = { fault_wire_counts W.wire_counts };

    fn counts(&self) -> WireCounts {
        let counts = self.wire.counts();
        WireCounts {
            strangers: counts.strangers,
            taken: counts.taken,
            too_long: counts.too_long,
            sent: counts.sent,
            failed_receives: counts
                .failed_receives
                .saturating_add(self.receives.failed()),
            failed_sends: counts.failed_sends.saturating_add(self.sends.failed()),
            buffer: counts.buffer,
        }
    }
}

impl<W: Wire> Wire for FaultWire<W> {
    ghost state = { fault_wire_state W.state };

    fn receive(&mut self, into: &mut FrameBuf) -> Result<Got, WireFault>
        ensures receives { Receives (fault_wire_state W.state self.old) result into.new.items
            (fault_wire_state W.state self.new) }
        ensures asked { (self.new.receives ≡ asked_once_more self.old.receives)
            × (self.new.sends ≡ self.old.sends) }
        ensures failed { FailsNext self.old.receives
            → (result ≡ Err WireFault.Receive) × (into.new.items ≡ [])
            × (self.new.inner ≡ self.old.inner) }
        ensures passed { ¬ FailsNext self.old.receives
            → Receives (W.state self.old.inner) result into.new.items (W.state self.new.inner) }
    {
        if self.receives.next_fails() {
            into.clear();
            return Err(WireFault::Receive);
        }
        self.wire.receive(into)
    }

    fn send(&mut self, frame: &[u8]) -> Result<(), WireFault>
        ensures sends { Sends (fault_wire_state W.state self.old) frame.now result
            (fault_wire_state W.state self.new) }
        ensures asked { (self.new.sends ≡ asked_once_more self.old.sends)
            × (self.new.receives ≡ self.old.receives) }
        ensures failed { FailsNext self.old.sends
            → (result ≡ Err WireFault.Send) × (self.new.inner ≡ self.old.inner) }
        ensures passed { ¬ FailsNext self.old.sends
            → Sends (W.state self.old.inner) frame.now result (W.state self.new.inner) }
    {
        if self.sends.next_fails() {
            return Err(WireFault::Send);
        }
        self.wire.send(frame)
    }
}
