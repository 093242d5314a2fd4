//! The calls that a program requests.

ghost use Rattle.macs_theorem.specs.Events.{HoldsDisk, HoldsEndpoint};
ghost use Rattle.macs_theorem.specs.Programs.{IsMade, holds};
ghost use Rattle.macs_theorem.specs.declared.asking.Request.TheVariants as asked;

use crate::asking::{Heard, Request};
use crate::held::Held;
use macs_config::{Command, Identity};
use macs_disk::SectorDisk;
use macs_endpoint::{Endpoint, format};
use macs_frame::FrameBuf;

/// Makes a call, unless what is held does not have it, and puts the answer into `heard`. An
/// endpoint is large, so it is moved in few places.
pub(crate) fn make_call<D: SectorDisk>(
    held: Held<D>,
    request: Request,
    heard: &mut Option<Heard>,
) -> Held<D>
    ensures { IsMade D.disk (holds held) request heard.new (holds result) }
{
    match held {
        Held::Disk(disk) => call_disk(disk, request, heard),
        Held::Endpoint(endpoint) => call_endpoint(endpoint, request, heard),
    }
}

// ---- of a disk

fn call_disk<D: SectorDisk>(mut disk: D, request: Request, heard: &mut Option<Heard>) -> Held<D>
    ensures { IsMade D.disk (HoldsDisk disk) request heard.new (holds result) }
{
    match request {
        Request::Format(identity) => {
            *heard = call_format(&mut disk, identity);
            Held::Disk(disk)
        }
        Request::Open => call_open(disk, heard),
        _ => {
            *heard = None;
            Held::Disk(disk)
        }
    }
}

fn call_format<D: SectorDisk>(disk: &mut D, identity: Identity) -> Option<Heard>
    ensures { IsMade D.disk (HoldsDisk disk.old) (asked.Format identity) result
        (HoldsDisk disk.new) }
{
    let result = format(disk, &identity);
    Some(Heard::Formatted(identity, result))
}

fn call_open<D: SectorDisk>(disk: D, heard: &mut Option<Heard>) -> Held<D>
    ensures { IsMade D.disk (HoldsDisk disk) asked.Open heard.new (holds result) }
{
    match Endpoint::open(disk) {
        Ok(endpoint) => {
            *heard = Some(Heard::Opened(Ok(())));
            Held::Endpoint(endpoint)
        }
        Err(refused) => {
            *heard = Some(Heard::Opened(Err(refused.fault)));
            Held::Disk(refused.disk)
        }
    }
}

// ---- of an endpoint

fn call_endpoint<D: SectorDisk>(
    mut endpoint: Endpoint<D>,
    request: Request,
    heard: &mut Option<Heard>,
) -> Held<D>
    ensures { IsMade D.disk (HoldsEndpoint endpoint) request heard.new (holds result) }
{
    *heard = match request {
        Request::Command(command) => call_command(&mut endpoint, &command),
        Request::Refill => call_refill(&mut endpoint),
        Request::Rest => call_rest(&mut endpoint),
        Request::Submit(command) => call_submit(&mut endpoint, &command),
        Request::Step => call_step(&mut endpoint),
        Request::Protect(plain) => call_protect(&mut endpoint, plain),
        Request::Receive(frame) => call_receive(&mut endpoint, frame),
        Request::Close => {
            *heard = Some(Heard::Closed);
            return Held::Disk(endpoint.into_disk());
        }
        Request::Format(_) | Request::Open => None,
    };
    Held::Endpoint(endpoint)
}

fn call_command<D: SectorDisk>(endpoint: &mut Endpoint<D>, command: &Command) -> Option<Heard>
    ensures { IsMade D.disk (HoldsEndpoint endpoint.old) (asked.Command command.now) result
        (HoldsEndpoint endpoint.new) }
{
    endpoint.facts();
    let result = endpoint.command(*command);
    Some(Heard::Ran(*command, result))
}

fn call_refill<D: SectorDisk>(endpoint: &mut Endpoint<D>) -> Option<Heard>
    ensures { IsMade D.disk (HoldsEndpoint endpoint.old) asked.Refill result
        (HoldsEndpoint endpoint.new) }
{
    endpoint.facts();
    let result = endpoint.refill();
    Some(Heard::Refilled(result))
}

fn call_rest<D: SectorDisk>(endpoint: &mut Endpoint<D>) -> Option<Heard>
    ensures { IsMade D.disk (HoldsEndpoint endpoint.old) asked.Rest result
        (HoldsEndpoint endpoint.new) }
{
    endpoint.facts();
    let result = endpoint.rest();
    Some(Heard::Rested(result))
}

fn call_submit<D: SectorDisk>(endpoint: &mut Endpoint<D>, command: &Command) -> Option<Heard>
    ensures { IsMade D.disk (HoldsEndpoint endpoint.old) (asked.Submit command.now) result
        (HoldsEndpoint endpoint.new) }
{
    endpoint.facts();
    let result = endpoint.submit(*command);
    Some(Heard::Submitted(*command, result))
}

fn call_step<D: SectorDisk>(endpoint: &mut Endpoint<D>) -> Option<Heard>
    ensures { IsMade D.disk (HoldsEndpoint endpoint.old) asked.Step result
        (HoldsEndpoint endpoint.new) }
{
    endpoint.facts();
    let result = endpoint.step();
    Some(Heard::Stepped(result))
}

fn call_protect<D: SectorDisk>(endpoint: &mut Endpoint<D>, plain: FrameBuf) -> Option<Heard>
    ensures { IsMade D.disk (HoldsEndpoint endpoint.old) (asked.Protect plain) result
        (HoldsEndpoint endpoint.new) }
{
    endpoint.facts();
    let mut out = FrameBuf::new();
    let result = endpoint.protect(plain.as_slice(), &mut out);
    Some(Heard::Protected { plain, result, out })
}

fn call_receive<D: SectorDisk>(endpoint: &mut Endpoint<D>, frame: FrameBuf) -> Option<Heard>
    ensures { IsMade D.disk (HoldsEndpoint endpoint.old) (asked.Receive frame) result
        (HoldsEndpoint endpoint.new) }
{
    endpoint.facts();
    let mut out = FrameBuf::new();
    let result = endpoint.receive(frame.as_slice(), &mut out);
    Some(Heard::Received { frame, result, out })
}
