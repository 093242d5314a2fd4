//! A step of an endpoint in two halves, once its work has begun: the device call that comes next,
//! and what it led to. Frames and commands may pass between them.

ghost use Rattle.std.specs.Prelude.{◌≡◌, ◌↔◌, ◌⊎◌, true, false, None, IfSome};
ghost use Rattle.macs_disk.specs.DeviceCalls.{IsMade, IsWithin};
ghost use Rattle.macs_store.specs.Value.{IsIdle};
ghost use Rattle.macs_endpoint.specs.Halves.{Did, IsNextCall, with_device};
ghost use Rattle.macs_endpoint.specs.Value.{IsKeeping, IsReserving, device_in, disk_in, is_stopped};

use crate::endpoint::Endpoint;
use crate::fault::StepFault;
use crate::progress::Step;
use crate::turn::Turn;
use macs_disk::{DeviceCall, DeviceFault, SectorDisk};
use macs_record::SECTOR;
use macs_store::JournalStep;

impl<D: SectorDisk> Endpoint<D> {
    /// The device call that the work under way needs next; `None` if no work is under way, or a
    /// device call failed before. It stays the same until `did_call`; frames do not affect it.
    pub fn next_call(&self) -> Option<DeviceCall>
        ensures none { (result ≡ None) ↔ ((is_stopped self.now ≡ true) ⊎ IsIdle self.now.store) }
        ensures call { IfSome result (IsNextCall self.now) }
        ensures within { IfSome result (IsWithin (disk_in D.disk self.now).sectors) }
    {
        self.store.next_call()
    }

    /// Makes a device call, and changes nothing else: the endpoint does not continue before
    /// `did_call`. A read puts the sector into `read`; no other call changes that.
    pub fn make(&mut self, call: &DeviceCall, read: &mut [u8; SECTOR]) -> Result<(), DeviceFault>
        requires { IsWithin (disk_in D.disk self.old).sectors call.now }
        ensures made { IsMade (disk_in D.disk self.old) (disk_in D.disk self.new) call.now read.new
            result }
        ensures same { self.old ≡ with_device self.new (device_in self.old) }
    {
        self.store.make(call, read)
    }

    /// Makes a device call, or begins it and does not wait, as `SectorDisk::try_make`: until it
    /// returns an answer nothing changes.
    pub fn try_make(
        &mut self,
        call: &DeviceCall,
        read: &mut [u8; SECTOR],
    ) -> Option<Result<(), DeviceFault>>
        requires { IsWithin (disk_in D.disk self.old).sectors call.now }
        ensures waits { result ≡ None
            → (self.new ≡ self.old) × ((disk_in D.disk self.old).prompt ≡ false) }
        ensures made { IfSome result (λ answer. IsMade (disk_in D.disk self.old)
            (disk_in D.disk self.new) call.now read.new answer) }
        ensures same { self.old ≡ with_device self.new (device_in self.old) }
    {
        self.store.try_make(call, read)
    }

    /// Continues after the call that `next_call` returned was made: with its answer, and with what
    /// it read. Work is under way. The result is that of a `step` that made this call.
    pub fn did_call(
        &mut self,
        read: &[u8; SECTOR],
        answer: Result<(), DeviceFault>,
    ) -> Result<Step, StepFault>
        requires { ¬ IsIdle self.old.store }
        ensures { Did D.disk self.old read.now answer result self.new }
    {
        if self.queue.raise().is_some() {
            self.did_reserving(read, answer)
        } else {
            self.did_keeping(read, answer)
        }
    }

    /// What a device call of a reservation led to. With the last one the ceiling is raised.
    fn did_reserving(
        &mut self,
        read: &[u8; SECTOR],
        answer: Result<(), DeviceFault>,
    ) -> Result<Step, StepFault>
        requires { IsReserving self.old }
        ensures { Did D.disk self.old read.now answer result self.new }
    {
        match self.store.did_call(read, answer) {
            Ok(progress) => match progress {
                JournalStep::Finished => {
                    let raise = self.queue.end_raise().unwrap();
                    self.channels.raise(raise, &self.store);
                    self.turn = Turn::Command;
                    Ok(Step::Reserved)
                }
                _ => Ok(Step::Worked),
            },
            Err(_) => {
                self.queue.end_raise(); // The next opening finds it or not.
                Err(StepFault::Disk)
            }
        }
    }

    /// What a device call of the command under way led to. With the last one it takes effect.
    fn did_keeping(
        &mut self,
        read: &[u8; SECTOR],
        answer: Result<(), DeviceFault>,
    ) -> Result<Step, StepFault>
        requires { IsKeeping self.old }
        ensures { Did D.disk self.old read.now answer result self.new }
    {
        match self.store.did_call(read, answer) {
            Ok(progress) => match progress {
                JournalStep::Finished => {
                    let done = self.queue.pop();
                    self.channels.follow(&done.command, &self.store);
                    self.turn = Turn::Reservation;
                    Ok(Step::Done(done.ticket, Ok(())))
                }
                _ => Ok(Step::Worked),
            },
            Err(_) => Err(StepFault::Disk),
        }
    }
}
