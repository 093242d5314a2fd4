//! The work of an endpoint on its disk, cut at the device calls, which a C program makes.

ghost use Rattle.std.specs.Prelude.{◌≡◌};
ghost use Rattle.macs_c.specs.ReportedDisks.{Moment};
ghost use Rattle.macs_c.specs.Calls.{DidFrom, MayReport, NextFrom};

use crate::answers::{Answer, step_answer};
use crate::device_calls::{MacsCall, MacsDone, reported, say, say_done};
use crate::reported::ReportedDisk;
use macs_endpoint::Endpoint;

/// Begins what is due, unless work is under way, and names its next device call: `Call`. Or returns
/// the answer of a step that needs none.
pub(crate) fn next_call(
    endpoint: &mut Endpoint<ReportedDisk>,
    call: &mut MacsCall,
    done: &mut MacsDone,
) -> Answer
    ensures { NextFrom endpoint.old call.old done.old result call.new done.new endpoint.new }
{
    if let Some(stepped) = endpoint.begin() {
        say_done(&stepped, done);
        return step_answer(&stepped);
    }
    let Some(next) = endpoint.next_call() else {
        return Answer::Call; // Not reached.
    };
    say(&next, call);
    Answer::Call
}

/// Continues after the device call that was named: with whether it succeeded, and what it read.
/// Returns `NoCall`, and changes nothing, if none is pending.
pub(crate) fn did_call(
    endpoint: &mut Endpoint<ReportedDisk>,
    read: &[u8; 512],
    ok: u32,
    done: &mut MacsDone,
) -> Answer
    ghost next: { Moment }
    requires { MayReport endpoint.old next read.now ok }
    ensures { DidFrom endpoint.old next read.now ok done.old result done.new endpoint.new }
{
    let Some(_call) = endpoint.next_call() else {
        return Answer::NoCall;
    };
    let said = reported(ok);
    let later = endpoint.disk().after(said);
    endpoint.replace_disk(later);
    let stepped = endpoint.did_call(read, said);
    say_done(&stepped, done);
    step_answer(&stepped)
}
