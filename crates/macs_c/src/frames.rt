//! Frames and commands through an endpoint, from a C program.

ghost use Rattle.std.specs.Prelude.{◌≡◌, ◌≤◌, ◌++◌, drop, length};
ghost use Rattle.macs_c.specs.Frames.{ProtectFrom, ReceiveFrom, SubmitFrom, buffer_of};

use crate::answers::{Answer, protect_answer, submit_answer};
use crate::commands::{MacsCommand, command_from_c};
use crate::reported::ReportedDisk;
use macs_endpoint::Endpoint;
use macs_frame::{FrameBuf, MAX_FRAME};

/// Queues a command, and stores its ticket. Otherwise nothing changes: `Field`, if a field is out
/// of its range, or why the endpoint does not take it.
pub(crate) fn submit(
    endpoint: &mut Endpoint<ReportedDisk>,
    command: &MacsCommand,
    ticket: &mut u64,
) -> Answer
    ensures { SubmitFrom endpoint.old command.now ticket.old result ticket.new endpoint.new }
{
    let Some(asked) = command_from_c(command) else {
        return Answer::Field;
    };
    match endpoint.submit(asked) {
        Ok(given) => {
            *ticket = given.get();
            Answer::Success
        }
        Err(fault) => submit_answer(fault),
    }
}

/// Puts a frame at the front of a buffer of at least 9,216 octets, and stores its length.
fn put_frame(frame: &FrameBuf, out: &mut [u8], written: &mut usize)
    requires { 9216 ≤ length out.old }
    ensures put { out.new ≡ frame.now.items ++ drop (length frame.now.items) out.old }
    ensures count { written.new ≡ length frame.now.items }
{
    let octets = frame.as_slice();
    let count = octets.len();
    out[..count].copy_from_slice(octets);
    *written = count;
}

/// Protects a plain frame into a buffer, and stores its length in octets and its packet number.
/// Otherwise nothing is stored: `Room`, if the buffer has fewer than 9,216 octets, or why the
/// endpoint does not send it.
pub(crate) fn protect(
    endpoint: &mut Endpoint<ReportedDisk>,
    plain: &[u8],
    out: &mut [u8],
    written: &mut usize,
    pn: &mut u32,
) -> Answer
    ensures { ProtectFrom endpoint.old plain.now (buffer_of out.old written.old) pn.old result
        (buffer_of out.new written.new) pn.new endpoint.new }
{
    if out.len() < MAX_FRAME {
        return Answer::Room;
    }
    let mut frame = FrameBuf::new();
    match endpoint.protect(plain, &mut frame) {
        Ok(number) => {
            put_frame(&frame, out, written);
            *pn = number.get();
            Answer::Success
        }
        Err(fault) => protect_answer(fault),
    }
}

/// The verdict on a frame from the common side. What is delivered is put into a buffer, and its
/// length in octets is stored. Nothing is stored with `Room`, if the buffer has fewer than 9,216
/// octets, and with `Stopped`.
pub(crate) fn receive(
    endpoint: &mut Endpoint<ReportedDisk>,
    frame: &[u8],
    out: &mut [u8],
    written: &mut usize,
) -> Answer
    ensures { ReceiveFrom endpoint.old frame.now (buffer_of out.old written.old) result
        (buffer_of out.new written.new) endpoint.new }
{
    if out.len() < MAX_FRAME {
        return Answer::Room;
    }
    let mut plain = FrameBuf::new();
    match endpoint.receive(frame, &mut plain) {
        Ok(verdict) => {
            put_frame(&plain, out, written); // It is empty unless the frame is delivered.
            Answer::Received(verdict)
        }
        Err(_) => Answer::Stopped,
    }
}
