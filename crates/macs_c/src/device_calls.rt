//! Device calls and completed commands, as a C program gets them.

ghost use Rattle.std.specs.Prelude.{◌≡◌};
ghost use Rattle.macs_c.specs.Calls.{call_after, done_after, reported};

use crate::answers::{command_answer, number_of};
use macs_disk::{DeviceCall, DeviceFault};
use macs_endpoint::{Step, StepFault};

/// A device call that a C program is to make.
#[repr(C)]
#[derive(Clone, Copy)]
pub struct MacsCall {
    /// 1 to read a sector, 2 to write one, 3 to sync: to make every sector durable.
    pub kind: u32,
    /// The number of the sector that is read or written, from 0 on. A sync leaves it as it was.
    pub sector: u64,
    /// The octets that are written. A read and a sync leave them as they were.
    pub octets: [u8; 512],
}

/// A command that was submitted, and is completed.
#[repr(C)]
#[derive(Clone, Copy)]
pub struct MacsDone {
    /// The ticket of the command, from 1 on.
    pub ticket: u64,
    /// How it ended, as a return code: 0, 56 or 100 to 111.
    pub answer: u32,
}

/// Names a device call to the C program.
pub(crate) fn say(next: &DeviceCall, call: &mut MacsCall)
    ensures { call.new ≡ call_after call.old next.now }
{
    match next {
        DeviceCall::Read(at) => {
            call.kind = 1;
            call.sector = *at;
        }
        DeviceCall::Write(at, octets) => {
            call.kind = 2;
            call.sector = *at;
            call.octets = *octets;
        }
        DeviceCall::Sync => {
            call.kind = 3;
        }
    }
}

/// Reports a command that a step completed, if it did.
pub(crate) fn say_done(stepped: &Result<Step, StepFault>, done: &mut MacsDone)
    ensures { done.new ≡ done_after done.old stepped.now }
{
    match stepped {
        Ok(Step::Done(ticket, ended)) => {
            done.ticket = ticket.get();
            done.answer = number_of(command_answer(*ended));
        }
        Ok(Step::Idle) => {}
        Ok(Step::Worked) => {}
        Ok(Step::Reserved) => {}
        Err(_) => {}
    }
}

/// What a C program reports of a device call that it made: 1 if it succeeded, any other number if
/// it failed.
pub(crate) fn reported(ok: u32) -> Result<(), DeviceFault>
    ensures { result ≡ reported ok }
{
    if ok == 1 { Ok(()) } else { Err(DeviceFault) }
}
