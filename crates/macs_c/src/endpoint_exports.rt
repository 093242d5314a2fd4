//! The calls of `include/macsec.h` for a whole endpoint.

ghost use Rattle.std.specs.Prelude.{◌≡◌, Bool, None};
ghost use Rattle.macs_c.specs.ReportedDisks.{Moment};
ghost use Rattle.macs_c.specs.Answers.{number_of};
ghost use Rattle.macs_c.specs.Calls.{DidAnswer, MayReportThere, NextAnswer, OpenAnswer};
ghost use Rattle.macs_c.specs.declared.answers.Answer.{Answer};

use crate::answers::{Answer, number_of, open_answer};
use crate::device_calls::{MacsCall, MacsDone};
use crate::handle::MacsEndpoint;
use crate::slot::Slot;
use crate::starting::{begin, store_of};
use crate::stepping::{did_call, next_call};
use std::mem::{align_of, size_of};

/// How many octets an endpoint takes: `MACS_ENDPOINT` of `include/macsec.h`.
const SIZE: usize = 263_424;

/// How many octets the address of its memory is a multiple of: `MACS_ENDPOINT_ALIGNMENT`.
const ALIGNMENT: usize = 16;

const _: () = prove!(size_of::<Slot>() == SIZE && align_of::<Slot>() == ALIGNMENT);

/// How many octets an endpoint takes.
#[unsafe(no_mangle)]
pub extern "C" fn macs_endpoint_size() -> usize
    ensures { result ≡ 263424 }
{
    SIZE
}

/// How many octets the address of its memory is a multiple of.
#[unsafe(no_mangle)]
pub extern "C" fn macs_endpoint_alignment() -> usize
    ensures { result ≡ 16 }
{
    ALIGNMENT
}

/// Opens an endpoint in the caller's memory, from all sectors of its disk as reads give them after
/// a sync that succeeded. Returns 0, or the code of the first that holds: an endpoint is open there
/// already, which stays as it is; there are fewer than 1,028 sectors; no head gate is open; the
/// journal is not valid; it is of format one. Then nothing changes.
#[unsafe(no_mangle)]
pub extern "C" fn macs_open(endpoint: &mut MacsEndpoint, sectors: &[[u8; 512]]) -> u32
    ghost honest: { Bool }
    ensures { (answer : Answer) × (result ≡ number_of answer)
        × OpenAnswer honest sectors.now endpoint.old.value answer endpoint.new.value }
{
    if endpoint.is_open() {
        return number_of(Answer::Open);
    }
    match store_of(sectors) {
        Ok(store) => {
            begin(endpoint, store);
            number_of(Answer::Success)
        }
        Err(fault) => number_of(open_answer(fault)),
    }
}

/// Continues the work of an endpoint, or begins what is due, up to its next device call, which is
/// stored in `call`. The call stays the same until `macs_did_call`; frames and commands may come in
/// between. If a step needs no device call, it is complete: its code is returned, and a command
/// that it completed is stored in `done`. If no endpoint is open nothing changes. No device call is
/// made.
#[unsafe(no_mangle)]
pub extern "C" fn macs_next_call(
    endpoint: &mut MacsEndpoint,
    call: &mut MacsCall,
    done: &mut MacsDone,
) -> u32
    ensures { (answer : Answer) × (result ≡ number_of answer)
        × NextAnswer endpoint.old.value call.old done.old answer call.new done.new
        endpoint.new.value }
{
    if !endpoint.is_open() {
        return number_of(Answer::Closed);
    }
    let slot = endpoint.get();
    number_of(next_call(&mut slot.endpoint, call, done))
}

/// Continues after the device call that `macs_next_call` named was made: `ok` is 1 if it succeeded,
/// any other number if it failed, and `read` is what a read gave. Returns the code of the step; a
/// command that it completed is stored in `done`. After a call that failed the endpoint is stopped.
/// If no endpoint is open, or no device call is pending, nothing changes.
#[unsafe(no_mangle)]
pub extern "C" fn macs_did_call(
    endpoint: &mut MacsEndpoint,
    read: &[u8; 512],
    ok: u32,
    done: &mut MacsDone,
) -> u32
    ghost next: { Moment }
    requires { MayReportThere endpoint.old.value next read.now ok }
    ensures { (answer : Answer) × (result ≡ number_of answer)
        × DidAnswer endpoint.old.value next read.now ok done.old answer done.new
        endpoint.new.value }
{
    if !endpoint.is_open() {
        return number_of(Answer::Closed);
    }
    let slot = endpoint.get();
    number_of(did_call(&mut slot.endpoint, read, ok, done))
}

/// Closes the endpoint, if one is open: its memory is the caller's again, with the keys in it. Its
/// pending commands are lost, but for the one that is under way, which the next opening finds or
/// not.
#[unsafe(no_mangle)]
pub extern "C" fn macs_close(endpoint: &mut MacsEndpoint)
    ensures { endpoint.new.value ≡ None }
{
    endpoint.close();
}
