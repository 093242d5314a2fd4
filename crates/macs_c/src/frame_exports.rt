//! The calls of `include/macsec.h` that pass frames and commands to a whole endpoint.

ghost use Rattle.std.specs.Prelude.{◌≡◌};
ghost use Rattle.macs_c.specs.Answers.{number_of};
ghost use Rattle.macs_c.specs.Frames.{ProtectAnswer, ReceiveAnswer, SubmitAnswer, buffer_of};
ghost use Rattle.macs_c.specs.declared.answers.Answer.{Answer};

use crate::answers::{Answer, number_of};
use crate::commands::MacsCommand;
use crate::frames::{protect, receive, submit};
use crate::handle::MacsEndpoint;

/// Queues a command, and stores the ticket with which `macs_next_call` or `macs_did_call` reports
/// its end. Returns 0, or the code of the first that holds: no endpoint is open, a field is out of
/// its range, the endpoint is stopped, 16 commands are pending, all tickets were given. Then
/// nothing changes.
#[unsafe(no_mangle)]
pub extern "C" fn macs_submit(
    endpoint: &mut MacsEndpoint,
    command: &MacsCommand,
    ticket: &mut u64,
) -> u32
    ensures { (answer : Answer) × (result ≡ number_of answer)
        × SubmitAnswer endpoint.old.value command.now ticket.old answer ticket.new
        endpoint.new.value }
{
    if !endpoint.is_open() {
        return number_of(Answer::Closed);
    }
    let slot = endpoint.get();
    number_of(submit(&mut slot.endpoint, command, ticket))
}

/// Protects a plain frame (10.5) into `out`, and stores its length in octets in `written` and its
/// packet number in `pn`. Returns 0, or the code of the first that holds: no endpoint is open,
/// `out` has fewer than 9,216 octets, the endpoint is stopped, the frame is not sent. Then no
/// packet number is used, and nothing is stored.
#[unsafe(no_mangle)]
pub extern "C" fn macs_protect(
    endpoint: &mut MacsEndpoint,
    plain: &[u8],
    out: &mut [u8],
    written: &mut usize,
    pn: &mut u32,
) -> u32
    ensures { (answer : Answer) × (result ≡ number_of answer)
        × ProtectAnswer endpoint.old.value plain.now (buffer_of out.old written.old) pn.old answer
        (buffer_of out.new written.new) pn.new endpoint.new.value }
{
    if !endpoint.is_open() {
        return number_of(Answer::Closed);
    }
    let slot = endpoint.get();
    number_of(protect(&mut slot.endpoint, plain, out, written, pn))
}

/// The verdict on a frame from the protected side (10.6), of any length. A frame that is delivered
/// is put into `out`, and its length in octets is stored in `written`; with any other verdict 0 is.
/// Returns the code of the verdict, or of the first that holds: no endpoint is open, `out` has
/// fewer than 9,216 octets, the endpoint is stopped. Then nothing is stored.
#[unsafe(no_mangle)]
pub extern "C" fn macs_receive(
    endpoint: &mut MacsEndpoint,
    frame: &[u8],
    out: &mut [u8],
    written: &mut usize,
) -> u32
    ensures { (answer : Answer) × (result ≡ number_of answer)
        × ReceiveAnswer endpoint.old.value frame.now (buffer_of out.old written.old) answer
        (buffer_of out.new written.new) endpoint.new.value }
{
    if !endpoint.is_open() {
        return number_of(Answer::Closed);
    }
    let slot = endpoint.get();
    number_of(receive(&mut slot.endpoint, frame, out, written))
}
