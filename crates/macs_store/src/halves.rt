//! A step of a store in two halves: the device call that comes next, and what it led to.

ghost use Rattle.std.specs.Prelude.{◌≡◌, ◌↔◌, ◌⊎◌, true, false, None, IfSome};
ghost use Rattle.macs_disk.specs.DeviceCalls.{IsMade, IsWithin};
ghost use Rattle.macs_store.specs.Halves.{Did, IsNextCall, with_device};
ghost use Rattle.macs_store.specs.Value.{IsIdle, device_in, disk_in, is_stopped};

use crate::store::Store;
use crate::under_way::UnderWay;
use macs_disk::{DeviceCall, DeviceFault, SectorDisk};
use macs_journal::{JournalFault, JournalStep};
use macs_record::SECTOR;
use std::mem::replace;

impl<D: SectorDisk> Store<D> {
    /// The device call that the work under way needs next; `None` if no work is under way, or a
    /// device call failed before. It stays the same until `did_call`.
    pub fn next_call(&self) -> Option<DeviceCall>
        ensures none { (result ≡ None) ↔ ((is_stopped self.now ≡ true) ⊎ IsIdle self.now) }
        ensures call { IfSome result (IsNextCall self.now) }
        ensures within { IfSome result (IsWithin (disk_in D.disk self.now).sectors) }
    {
        let _under_way = &self.under_way;
        self.journal.next_call(&self.standing)
    }

    /// Makes a device call, and changes nothing else: the store does not continue before
    /// `did_call`. A read puts the sector into `read`; no other call changes that.
    pub fn make(&mut self, call: &DeviceCall, read: &mut [u8; SECTOR]) -> Result<(), DeviceFault>
        requires { IsWithin (disk_in D.disk self.old).sectors call.now }
        ensures made { IsMade (disk_in D.disk self.old) (disk_in D.disk self.new) call.now read.new
            result }
        ensures same { self.old ≡ with_device self.new (device_in self.old) }
    {
        self.journal.make(call, read)
    }

    /// Makes a device call, or begins it and does not wait, as `SectorDisk::try_make`: until it
    /// returns an answer nothing changes.
    pub fn try_make(
        &mut self,
        call: &DeviceCall,
        read: &mut [u8; SECTOR],
    ) -> Option<Result<(), DeviceFault>>
        requires { IsWithin (disk_in D.disk self.old).sectors call.now }
        ensures waits { result ≡ None
            → (self.new ≡ self.old) × ((disk_in D.disk self.old).prompt ≡ false) }
        ensures made { IfSome result (λ answer. IsMade (disk_in D.disk self.old)
            (disk_in D.disk self.new) call.now read.new answer) }
        ensures same { self.old ≡ with_device self.new (device_in self.old) }
    {
        self.journal.try_make(call, read)
    }

    /// Continues after the call that `next_call` returned was made: with its answer, and with what
    /// it read. Work is under way. The result is that of a `step` that made this call.
    pub fn did_call(
        &mut self,
        read: &[u8; SECTOR],
        answer: Result<(), DeviceFault>,
    ) -> Result<JournalStep, JournalFault>
        requires { ¬ IsIdle self.old }
        ensures { Did D.disk self.old read.now answer result self.new }
    {
        self.standing.facts();
        match self.journal.did_call(read, answer) {
            Ok(step) => match step {
                JournalStep::Finished => match replace(&mut self.under_way, UnderWay::Nothing) {
                    UnderWay::Nothing => Ok(JournalStep::Finished), // Not reached.
                    UnderWay::Compacting(kept) => {
                        self.journal.start_append(&kept.record()).unwrap();
                        self.under_way = UnderWay::Appending(kept);
                        Ok(JournalStep::Going)
                    }
                    UnderWay::Appending(kept) => {
                        // A verdict still holds, since the standing is as it was.
                        self.standing.keep(&kept);
                        Ok(JournalStep::Finished)
                    }
                },
                _ => Ok(step),
            },
            Err(fault) => {
                self.under_way = UnderWay::Nothing; // The next opening finds the record or not.
                Err(fault)
            }
        }
    }
}
