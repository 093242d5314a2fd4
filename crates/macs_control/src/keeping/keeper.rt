//! What a keeper does for its client.

ghost use Rattle.std.specs.Prelude.{◌≡◌, ◌≢◌, true, IfErr, IfOk, OnOk};
ghost use Rattle.macs_disk.specs.DeviceCalls.{IsWithin};
ghost use Rattle.macs_disk.specs.Messages.{greeting_octets, request_of};
ghost use Rattle.macs_control.specs.Keepers.{EndsWith, Keeps, Makes, Served, Serves, Takes};
ghost use Rattle.macs_control.specs.Keepers.{AsksNot, MakesOne, end_of_cut};
ghost use Rattle.macs_control.specs.Links.{GivesOctets, line_of};

use crate::connection::Connection;
use crate::keeping::cut::Cut;
use crate::keeping::taking::take_whole;
use crate::keeping::waiting::Waits;
use arrayvec::ArrayVec;
use macs_commands::secrets::wipe;
use macs_disk::messages::{CallAnswer, Greeting, REQUEST};
use macs_disk::{DeviceCall, SectorDisk};

/// What ended a keeper's work for a client.
#[derive(Clone, Copy, Debug, PartialEq, Eq)]
pub enum KeepEnd {
    /// The greeting could not be sent.
    Ungreeted,
    /// The client has ended the connection. A request that it sent in part is not made.
    Ended,
    /// The connection failed, or carried 2^64 - 1 requests.
    Gone,
    /// The client sent what is not a request.
    Malformed,
    /// The client asked for a sector that the disk does not have.
    Outside,
    /// The answer to the last call could not be sent.
    Unanswered,
}

/// The end of the work for a client whose next request did not arrive.
fn end_of(cut: Cut) -> KeepEnd
    ensures { result ≡ end_of_cut cut }
{
    match cut {
        Cut::Ended => KeepEnd::Ended,
        Cut::Gone => KeepEnd::Gone,
    }
}

/// Takes the next request for a disk of this many sectors, and waits for it.
fn next_call<C: Waits>(sectors: u64, client: &mut C) -> Result<DeviceCall, KeepEnd>
    ensures call { IfOk result (λ call. IsWithin sectors call
        × Takes (C.link client.old) (request_of call) (C.link client.new)) }
    ensures end { IfErr result (λ end. AsksNot sectors end (C.link client.old)
        (C.link client.new)) }
    ensures steady { C.steady client.old ≡ true → IfErr result (λ end. end ≢ KeepEnd.Gone) }
    ensures still { C.steady client.old ≡ true → OnOk result (C.steady client.new ≡ true) }
{
    let mut octets: ArrayVec<u8, REQUEST> = match take_whole(client) {
        Ok(octets) => octets,
        Err(cut) => return Err(end_of(cut)),
    };
    let requested = DeviceCall::requested(octets.as_slice());
    wipe(octets.as_mut_slice());
    let Some(call) = requested else {
        return Err(KeepEnd::Malformed);
    };
    if !call.is_within(sectors) {
        return Err(KeepEnd::Outside);
    }
    Ok(call)
}

/// Makes a call, and sends its answer. Returns whether all of it was sent.
fn make<D: SectorDisk, C: Connection>(disk: &mut D, client: &mut C, call: &DeviceCall) -> bool
    requires { IsWithin (D.disk disk.old).sectors call.now }
    ensures made { MakesOne (D.disk disk.old) (C.link client.old) call.now result
        (D.disk disk.new) (C.link client.new) }
    ensures still { C.steady client.new ≡ C.steady client.old }
{
    let mut read = [0; 512];
    let end = call.make(disk, &mut read);
    let mut octets = CallAnswer::to(call, &read, end).octets();
    let is_sent = client.try_send(&octets);
    wipe(&mut octets);
    wipe(&mut read);
    is_sent
}

/// Serves one request.
fn serve_one<D: SectorDisk, C: Waits>(disk: &mut D, client: &mut C) -> Result<(), KeepEnd>
    ensures served { OnOk result ((served : Served) × Makes (D.disk disk.old) (C.link client.old)
        served true (D.disk disk.new) (C.link client.new)) }
    ensures end { IfErr result (λ end. EndsWith end (D.disk disk.old) (C.link client.old)
        (D.disk disk.new) (C.link client.new)) }
    ensures steady { C.steady client.old ≡ true → IfErr result (λ end. end ≢ KeepEnd.Gone) }
    ensures still { C.steady client.old ≡ true → OnOk result (C.steady client.new ≡ true) }
{
    let call = match next_call(disk.sectors(), client) {
        Ok(call) => call,
        Err(end) => return Err(end),
    };
    if make(disk, client, &call) {
        Ok(())
    } else {
        Err(KeepEnd::Unanswered)
    }
}

/// Serves requests until one is the last.
fn serve<D: SectorDisk, C: Waits>(disk: &mut D, client: &mut C) -> KeepEnd
    ensures { Serves (D.disk disk.old) (line_of C.link C.steady client.old) result
        (D.disk disk.new) (C.link client.new) }
{
    for _request in 0..u64::MAX {
        match serve_one(disk, client) {
            Ok(()) => {}
            Err(end) => return end,
        }
    }
    KeepEnd::Gone
}

/// Greets a client. Returns whether all of the greeting was sent.
fn greet<D: SectorDisk, C: Connection>(disk: &D, client: &mut C) -> bool
    ensures given { GivesOctets (C.link client.old) (C.link client.new)
        (greeting_octets (D.disk disk.now).sectors) result }
    ensures still { C.steady client.new ≡ C.steady client.old }
{
    let greeting = Greeting {
        sectors: disk.sectors(),
    };
    client.try_send(&greeting.octets())
}

/// Keeps a disk for a client: greets it with the number of sectors, and then makes each call that
/// it asks for, one after another, and sends one answer to each. Returns what ended that. No other
/// call is made.
pub fn keep_for<D: SectorDisk, C: Waits>(disk: &mut D, client: &mut C) -> KeepEnd
    ensures { Keeps (D.disk disk.old) (line_of C.link C.steady client.old) result
        (D.disk disk.new) (C.link client.new) }
{
    if greet(disk, client) {
        serve(disk, client)
    } else {
        KeepEnd::Ungreeted
    }
}
