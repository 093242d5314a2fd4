//! A wire in memory, for tests and for wires built on it.

ghost use Rattle.std.specs.Prelude.{◌≡◌, ◌++◌, [], ◌∷◌, IfErr, IsOk, OnErr, OnOk};
ghost use Rattle.macs_edge.specs.Counts.{counts_after_receive, counts_after_send};
ghost use Rattle.macs_edge.specs.MemWires.{frames_of, mem_wire_counts, mem_wire_state, sent_in};
ghost use Rattle.macs_edge.specs.MemWires.{waiting_in};
ghost use Rattle.macs_edge.specs.Wires.{Receives, Sends};

use crate::counts::{Counted, WireCounts};
use crate::wire::{Got, Wire, WireFault};
use macs_frame::{FrameBuf, MAX_FRAME};
use std::alloc::Allocator;
use std::collections::VecDeque;

/// A wire in memory: it gives the frames that were pushed, in order, and keeps those that are sent.
/// It fails only if memory runs out, and no receive of it fails.
#[derive(Drop)]
pub struct MemWire<A: Allocator + Copy> {
    alloc: A,
    waiting: VecDeque<Vec<u8, A>, A>,
    sent: Vec<Vec<u8, A>, A>,
    frames_taken: u64,
    frames_too_long: u64,
    frames_sent: u64,
    failed_sends: u64,
}

impl<A: Allocator + Copy> Wire for MemWire<A> {
    ghost state = { λ wire. mem_wire_state wire };

    fn receive(&mut self, into: &mut FrameBuf) -> Result<Got, WireFault>
        ensures receives { Receives (mem_wire_state self.old) result into.new.items
            (mem_wire_state self.new) }
        ensures never { IsOk result }
        ensures counts { mem_wire_counts self.new
            ≡ counts_after_receive result (mem_wire_counts self.old) }
    {
        into.clear();
        let Some(frame) = self.waiting.pop_front() else {
            return Ok(Got::Nothing);
        };
        self.frames_taken = self.frames_taken.saturating_add(1);
        if frame.len() > MAX_FRAME || into.try_extend_from_slice(&frame).is_err() {
            self.frames_too_long = self.frames_too_long.saturating_add(1);
            return Ok(Got::TooLong);
        }
        Ok(Got::Frame)
    }

    fn send(&mut self, frame: &[u8]) -> Result<(), WireFault>
        ensures sends { Sends (mem_wire_state self.old) frame.now result (mem_wire_state self.new) }
        ensures memory { IfErr result (λ fault. fault ≡ WireFault.Memory) }
        ensures counts { mem_wire_counts self.new
            ≡ counts_after_send result (mem_wire_counts self.old) }
    {
        if self.keep(frame) {
            self.frames_sent = self.frames_sent.saturating_add(1);
            return Ok(());
        }
        self.failed_sends = self.failed_sends.saturating_add(1);
        Err(WireFault::Memory)
    }
}

impl<A: Allocator + Copy> Counted for MemWire<A> {
    ghost wire_counts = { λ wire. mem_wire_counts wire };

    fn counts(&self) -> WireCounts {
        WireCounts {
            strangers: 0,
            taken: self.frames_taken,
            too_long: self.frames_too_long,
            sent: self.frames_sent,
            failed_receives: 0,
            failed_sends: self.failed_sends,
            buffer: None,
        }
    }
}

impl<A: Allocator + Copy> MemWire<A> {
    ghost use Rattle.std.specs.Prelude.{◌≡◌, ◌++◌, [], ◌∷◌, if◌then◌else◌, Some, IfErr, OnErr};
    ghost use Rattle.std.specs.Prelude.{OnOk};
    ghost use Rattle.macs_edge.specs.Counts.{no_counts};
    ghost use Rattle.macs_edge.specs.MemWires.{frames_of, mem_wire_counts, mem_wire_state, sent_in};
    ghost use Rattle.macs_edge.specs.MemWires.{waiting_in};

    /// A wire with no waiting and no sent frames.
    pub fn new(alloc: A) -> MemWire<A>
        ensures state { mem_wire_state result
            ≡ record { waiting = Some []; sent = Some []; failed_receives = 0; failed_sends = 0 } }
        ensures counts { mem_wire_counts result ≡ no_counts }
    {
        MemWire {
            alloc,
            waiting: VecDeque::new(alloc),
            sent: Vec::new(alloc),
            frames_taken: 0,
            frames_too_long: 0,
            frames_sent: 0,
            failed_sends: 0,
        }
    }

    /// Adds a frame after those that are waiting. Fails only with `Memory`, and changes nothing
    /// then.
    pub fn push(&mut self, frame: &[u8]) -> Result<(), WireFault>
        ensures pushed { OnOk result (mem_wire_state self.new
            ≡ record (mem_wire_state self.old) {
              waiting =
                  Some (waiting_in self.old ++ frame.now ∷ []);
            }) }
        ensures same { OnErr result (mem_wire_state self.new ≡ mem_wire_state self.old) }
        ensures memory { IfErr result (λ fault. fault ≡ WireFault.Memory) }
        ensures counts { mem_wire_counts self.new ≡ mem_wire_counts self.old }
    {
        let Ok(copy) = Vec::from_slice(self.alloc, frame) else {
            return Err(WireFault::Memory);
        };
        if self.waiting.push_back(copy).is_err() {
            return Err(WireFault::Memory);
        }
        Ok(())
    }

    /// The frames that were sent, in order.
    pub fn sent(&self) -> &[Vec<u8, A>]
        ensures { frames_of result.now ≡ sent_in self.now }
    {
        &self.sent
    }

    /// Keeps a copy of a sent frame, if there is memory for it.
    fn keep(&mut self, frame: &[u8]) -> bool
        ensures kept { mem_wire_state self.new ≡ record (mem_wire_state self.old) {
          sent =
              Some (if result then sent_in self.old ++ frame.now ∷ [] else sent_in self.old);
        } }
        ensures counts { mem_wire_counts self.new ≡ mem_wire_counts self.old }
    {
        let Ok(copy) = Vec::from_slice(self.alloc, frame) else {
            return false;
        };
        self.sent.push(copy).is_ok()
    }
}
