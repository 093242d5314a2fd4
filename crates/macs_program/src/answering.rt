//! Answers of a relay to requests over any connection, and the texts of them that are printed.

ghost use Rattle.std.specs.Prelude.{◌≡◌, ◌≢◌, ◌⊎◌, ◌++◌, ◌∷◌, [], IfErr, IfOk, OnOk, true, false};
ghost use Rattle.std.specs.Io.KnownBytes.{Appends};
ghost use Rattle.macs_commands.specs.Requests.{request_line};
ghost use Rattle.macs_control.specs.Asking.{Outlives, Sends, SendsSome, conversation_of};
ghost use Rattle.macs_cli.specs.Objects.{in_form, json_text};
ghost use Rattle.macs_program.specs.Asking.{Asks, AsksForText, AsksInVain, FailsNowhere};
ghost use Rattle.macs_program.specs.Asking.{FailsToEnd, IsNoJson, IsUnheard, IsUnprinted};
ghost use Rattle.macs_program.specs.Asking.{LacksDone};
ghost use Rattle.macs_program.specs.Asking.{SaysNoMore, failure_in};

use macs_cli::{DiskFault, Failure, Status, Stream, print_json, print_octets};
use macs_commands::Paper;
use macs_commands::requests::{MAX_LINE, Request, write_request};
use macs_control::{Answer, Asker, Connection};
use macs_journal::JournalFault;
use std::alloc::Global;
use std::str;

/// Room for the line of a request and its line feed, in octets.
const LINE_ROOM: usize = MAX_LINE + 1;

/// Sends a request to a relay. Fails with `Memory` if this program has none, and with `Control` if
/// the relay goes away.
fn send_request<S: Connection>(
    alloc: Global,
    asker: &mut Asker<S>,
    request: &Request,
) -> Result<(), Failure>
    ensures sent { OnOk result (Sends (conversation_of S.link asker.old)
        (request_line request.now ++ 10 ∷ []) (conversation_of S.link asker.new)) }
    ensures cut { IfErr result (λ failure. SendsSome (conversation_of S.link asker.old)
        (request_line request.now ++ 10 ∷ []) (conversation_of S.link asker.new)) }
    ensures failed { IfErr result IsUnheard }
{
    let mut line = Paper::new(alloc, LINE_ROOM)?;
    write_request(&mut line, request);
    line.end_line();
    match line.text() {
        Some(octets) => {
            asker.send(octets)?;
            Ok(())
        }
        None => Err(Failure::Memory), // No request is so long.
    }
}

/// The relay's answer to a request. Fails with `Memory` if this program has none, and with
/// `Control` if the relay goes away or does not answer.
pub fn answer_to<S: Connection>(
    alloc: Global,
    asker: &mut Asker<S>,
    request: &Request,
) -> Result<Answer, Failure>
    ensures asked { IfOk result (λ answer. Asks (conversation_of S.link asker.old) request.now
        answer.text.items answer.status (conversation_of S.link asker.new)) }
    ensures vain { IfErr result (λ failure. AsksInVain (conversation_of S.link asker.old)
        request.now failure (conversation_of S.link asker.new)) }
    ensures failed { IfErr result IsUnheard }
{
    send_request(alloc, asker, request)?;
    let answer = asker.answer(alloc)?;
    Ok(answer)
}

/// The meaning of the status of an answer if the request was not carried out.
pub fn failure_in(status: u8) -> Failure
    ensures { result ≡ failure_in status }
{
    match status {
        4 => Failure::Disk(DiskFault::Journal(JournalFault::Stopped)),
        5 => Failure::Memory,
        _ => Failure::Control,
    }
}

/// The relay's answer to a request that it carried out. Fails as `answer_to` does, and as the
/// status of the answer says.
fn done_answer<S: Connection>(
    alloc: Global,
    asker: &mut Asker<S>,
    request: &Request,
) -> Result<Answer, Failure>
    ensures asked { IfOk result (λ answer. Asks (conversation_of S.link asker.old) request.now
        answer.text.items 0 (conversation_of S.link asker.new)) }
    ensures lacks { IfErr result (λ failure. LacksDone (conversation_of S.link asker.old)
        request.now failure (conversation_of S.link asker.new)) }
{
    let answer = answer_to(alloc, asker, request)?;
    if answer.status != 0 {
        return Err(failure_in(answer.status));
    }
    Ok(answer)
}

/// Prints the text of an answer as JSON. Fails with `Memory`; with `Control` only if the text is
/// not UTF-8, as a relay's text always is; and with `Output`.
fn print_as_json<W: Stream>(alloc: Global, text: &[u8], out: &mut W) -> Result<(), Failure>
    ensures printed { OnOk result
        (Appends (W.contents out.old) (W.contents out.new) (json_text text.now)) }
    ensures failed { IfErr result (IsNoJson text.now) }
    ensures silent { IfErr result (λ failure. failure ≢ Failure.Output → out.new ≡ out.old) }
    ensures broken { IfErr result (λ failure. failure ≡ Failure.Output → W.failed out.new ≡ true) }
{
    let Ok(text) = str::from_utf8(text) else {
        return Err(Failure::Control);
    };
    print_json(alloc, text, out)
}

/// Prints the text of an answer, as JSON if requested. Fails as `print_as_json` does.
fn print_text<W: Stream>(
    alloc: Global,
    text: &[u8],
    is_json: bool,
    out: &mut W,
) -> Result<(), Failure>
    ensures printed { OnOk result
        (Appends (W.contents out.old) (W.contents out.new) (in_form is_json text.now)) }
    ensures failed { IfErr result (IsUnprinted is_json text.now) }
    ensures silent { IfErr result (λ failure. failure ≢ Failure.Output → out.new ≡ out.old) }
    ensures broken { IfErr result (λ failure. failure ≡ Failure.Output → W.failed out.new ≡ true) }
{
    if is_json {
        return print_as_json(alloc, text, out);
    }
    print_octets(out, text)
}

/// Asks a relay for a text, and prints it, as JSON if requested.
pub fn ask_once<S: Connection, W: Stream>(
    alloc: Global,
    asker: &mut Asker<S>,
    request: Request,
    is_json: bool,
    out: &mut W,
) -> Result<Status, Failure>
    ensures { AsksForText W.contents W.failed request SaysNoMore FailsNowhere is_json
        (conversation_of S.link asker.old) out.old result (conversation_of S.link asker.new)
        out.new }
{
    let answer = done_answer(alloc, asker, &request)?;
    print_text(alloc, answer.text.as_slice(), is_json, out)?;
    Ok(Status::Done)
}

/// Asks a relay to end, and waits until it has ended the connection, by when its last line is
/// printed. If it does not, nothing is printed, and this fails with `Control`.
pub fn ask_stop<S: Connection, W: Stream>(
    alloc: Global,
    asker: &mut Asker<S>,
    out: &mut W,
) -> Result<Status, Failure>
    ensures { AsksForText W.contents W.failed Request.Stop Outlives FailsToEnd false
        (conversation_of S.link asker.old) out.old result (conversation_of S.link asker.new)
        out.new }
{
    let answer = done_answer(alloc, asker, &Request::Stop)?;
    asker.outlast()?;
    print_text(alloc, answer.text.as_slice(), false, out)?;
    Ok(Status::Done)
}
