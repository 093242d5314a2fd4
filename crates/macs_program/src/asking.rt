//! `ask`: puts a question to a running relay over its control socket, and prints the answer.

ghost use Rattle.std.specs.Prelude.{◌≡◌, ◌≢◌, IfErr, IfOk, codes, true};
ghost use Rattle.std.specs.IoError.{error_kind};
ghost use Rattle.macs_cli.specs.Reasons.{Complains, Tells};
ghost use Rattle.macs_program.specs.Asking.{AskFails, IsForOther, IsUnanswered, PrintsAnswer};
ghost use Rattle.macs_program.specs.Asking.{PrintsFront, TellsOfSocket};
ghost use Rattle.macs_program.specs.Sockets.{socket_reason, socket_text};

use crate::conversing::converse;
use crate::socket_reason::{SocketReason, socket_reason};
use macs_cli::{Failure, Question, Status, Stream, failure_told};
use macs_control::{Asker, PatientStream};
use std::alloc::Global;
use std::io;
use std::net::Net;
use std::rt::Files;

/// The failure for an error of a connection: a message with the reason, or `Memory` if there is no
/// memory for it.
fn failure_of_connection(alloc: Global, path: &str, error: io::Error) -> Failure
    ensures { Complains (Tells (codes "control") path.now
        (socket_text (socket_reason (error_kind error)))) result }
{
    let reason = socket_reason(error.kind());
    failure_told(alloc, "control", path, reason.text())
}

/// Connects to the relay that listens on the socket with this name. Fails with `Said` and the
/// reason if none does, and with `Memory`.
fn asker_at<N: Net>(net: &N, alloc: Global, path: &str) -> Result<Asker<PatientStream>, Failure>
    ensures { IfErr result (TellsOfSocket path.now) }
{
    match PatientStream::connect(net, path) {
        Ok(stream) => Ok(Asker::over(stream)),
        Err(error) => Err(failure_of_connection(alloc, path, error)),
    }
}

/// The failure that no answer of a relay came from a socket.
fn unanswered(alloc: Global, path: &str) -> Failure
    ensures { IsUnanswered path.now result }
{
    failure_told(alloc, "control", path, SocketReason::NoAnswer.text())
}

/// Names the socket or the file in a failure that does not name it. Only a command file can be for
/// another end.
fn named_failure(alloc: Global, path: &str, question: Question, failure: Failure) -> Failure
    ensures gone { failure ≡ Failure.Control → IsUnanswered path.now result }
    ensures other_end { failure ≡ Failure.Commands → IsForOther path.now question.entry result }
    ensures same { failure ≢ Failure.Control → failure ≢ Failure.Commands
        → result ≡ failure }
{
    match failure {
        Failure::Control => unanswered(alloc, path),
        Failure::Commands => match question {
            Question::Apply(file) => failure_told(alloc, "commands", file, "for another end"),
            Question::Show
            | Question::Counters
            | Question::Keys
            | Question::Traffic
            | Question::About
            | Question::Stop => unanswered(alloc, path),
        },
        other => other,
    }
}

/// `ask`: asks a running relay, and prints its answer, a report as JSON if requested. Fails with
/// `Said` and the reason if no relay is listening on the socket, or gives no answer, or if the
/// command file cannot be read, has a fault, or names an end and the relay's endpoint has another
/// SCI; with `Disk` and `Stopped` if the relay ended before it answered a command; with `Memory`;
/// and with `Output`.
pub fn ask<T: Files + Net, W: Stream>(
    rt: &T,
    alloc: Global,
    path: &str,
    question: Question,
    is_json: bool,
    out: &mut W,
) -> Result<Status, Failure>
    ensures printed { IfOk result
        (PrintsAnswer question.entry is_json (W.contents out.old) (W.contents out.new)) }
    ensures failed { IfErr result (AskFails path.now question.entry) }
    ensures front { IfErr result (λ failure. failure ≢ Failure.Output
        → PrintsFront question.entry (W.contents out.old) (W.contents out.new)) }
    ensures broken { IfErr result (λ failure. failure ≡ Failure.Output → W.failed out.new ≡ true) }
{
    let mut asker = asker_at(rt, alloc, path)?;
    match converse(rt, alloc, &mut asker, question, is_json, out) {
        Ok(status) => Ok(status),
        Err(failure) => Err(named_failure(alloc, path, question, failure)),
    }
}
