//! A question that is put to a relay over any connection.

ghost use Rattle.std.specs.Prelude.{◌≡◌, ◌↔◌, None, IfErr, IfOk, IsTrue, Ok, OnOk, string_bytes};
ghost use Rattle.macs_control.specs.Asking.{conversation_of};
ghost use Rattle.macs_program.specs.Asking.{AppliesFile, Converses, IsOther, LacksEnd, LacksOwn};
ghost use Rattle.macs_program.specs.Asking.{ShowsEnd, ShowsOwn, failure_of_other, is_of_endpoint};
ghost use Rattle.macs_program.specs.Asking.{sci_line};
ghost use Rattle.macs_record.specs.Sectors.{Begins};

use crate::answering::{answer_to, ask_once, ask_stop, failure_in};
use crate::sending::apply_each;
use macs_cli::{Failure, Question, Status, Stream};
use macs_commands::requests::Request;
use macs_control::{Answer, Asker, Connection};
use macs_fields::Sci;
use macs_offline::commands_told;
use macs_texts::ended;
use std::alloc::{AllocError, Global};
use std::rt::Files;

/// The first octets of the text of each endpoint.
const SCI_WORD: &[u8] = b"sci ";

/// The first line of the text of the endpoint with this SCI.
fn sci_line(alloc: Global, sci: Sci) -> Result<String, AllocError>
    ensures { IfOk result (λ text. string_bytes text ≡ sci_line sci) }
{
    let sci = hex::encode(alloc, sci.get())?;
    ended(format!(in alloc; "sci {sci}")?)
}

/// Whether an answer is the text of the endpoint with this SCI, that is, begins with that line.
fn is_shown(alloc: Global, answer: &Answer, sci: Sci) -> Result<bool, AllocError>
    ensures { IfOk result
        (λ is. IsTrue is ↔ Begins (sci_line sci) answer.now.text.items) }
{
    let line = sci_line(alloc, sci)?;
    Ok(answer.text.as_slice().starts_with(line.as_str().as_bytes()))
}

/// Whether a text is that of some endpoint.
fn is_of_endpoint(text: &[u8]) -> bool
    ensures { result ≡ is_of_endpoint text.now }
{
    text.starts_with(SCI_WORD)
}

/// Why a text is not that of the end named by a command file: it is that of another end, or of
/// none.
fn failure_of_other(text: &[u8]) -> Failure
    ensures { result ≡ failure_of_other text.now }
{
    if is_of_endpoint(text) {
        return Failure::Commands;
    }
    Failure::Control
}

/// Refuses an answer that is not the text of the endpoint with this SCI. Fails with `Commands` if
/// it is that of another endpoint, and with `Control` if it is that of none.
fn refuse_other(alloc: Global, answer: &Answer, sci: Sci) -> Result<(), Failure>
    ensures own { OnOk result
        ((answer.now.status ≡ 0) × Begins (sci_line sci) answer.now.text.items) }
    ensures other { IfErr result (IsOther sci answer.now.status answer.now.text.items) }
{
    let status = answer.status;
    if status != 0 {
        return Err(failure_in(status));
    }
    if !is_shown(alloc, answer, sci)? {
        return Err(failure_of_other(answer.text.as_slice()));
    }
    Ok(())
}

/// Asks a relay for the text of its endpoint, which must have this SCI. Fails as `answer_to` does,
/// and with `Commands` if the endpoint has another SCI.
fn find_own<S: Connection>(alloc: Global, asker: &mut Asker<S>, sci: Sci) -> Result<(), Failure>
    ensures own { OnOk result (ShowsOwn (conversation_of S.link asker.old) sci
        (conversation_of S.link asker.new)) }
    ensures other { IfErr result (λ failure. LacksOwn (conversation_of S.link asker.old) sci
        failure (conversation_of S.link asker.new)) }
{
    let answer = answer_to(alloc, asker, &Request::Show)?;
    refuse_other(alloc, &answer, sci)
}

/// Checks that a relay is that of the end named by a command file. If the file names none, it is
/// for each end, and the relay is not asked.
fn find_end<S: Connection>(
    alloc: Global,
    asker: &mut Asker<S>,
    end: Option<Sci>,
) -> Result<(), Failure>
    ensures any { end ≡ None → (result ≡ Ok tt) × (asker.new ≡ asker.old) }
    ensures own { OnOk result (ShowsEnd (conversation_of S.link asker.old) end
        (conversation_of S.link asker.new)) }
    ensures other { IfErr result (λ failure. LacksEnd (conversation_of S.link asker.old) end
        failure (conversation_of S.link asker.new)) }
{
    match end {
        Some(sci) => find_own(alloc, asker, sci),
        None => Ok(()),
    }
}

/// Sends the commands of a file to a relay, if the file is for its endpoint.
fn apply_file<T: Files, S: Connection, W: Stream>(
    rt: &T,
    alloc: Global,
    asker: &mut Asker<S>,
    file: &str,
    out: &mut W,
) -> Result<Status, Failure>
    ensures { AppliesFile T.File.remaining W.contents W.failed file.now
        (conversation_of S.link asker.old) out.old result (conversation_of S.link asker.new)
        out.new }
{
    let told = commands_told(rt, alloc, file)?;
    find_end(alloc, asker, told.end)?;
    apply_each(alloc, asker, told.commands.as_slice(), out)
}

/// Puts a question to a relay, and prints its answer, a report as JSON if requested. Fails first
/// for a command file, with `Said`, and with `Commands` if the file names an end and the relay's
/// endpoint has another SCI: before the first command the relay is asked for its text. Then it
/// fails with `Disk` and `Stopped` if the relay ended before it answered a command; with `Control`
/// if the relay went away, or its reply is not a valid answer; with `Memory`; and with `Output`.
pub fn converse<T: Files, S: Connection, W: Stream>(
    rt: &T,
    alloc: Global,
    asker: &mut Asker<S>,
    question: Question,
    is_json: bool,
    out: &mut W,
) -> Result<Status, Failure>
    ensures { Converses T.File.remaining W.contents W.failed question.entry is_json
        (conversation_of S.link asker.old) out.old result (conversation_of S.link asker.new)
        out.new }
{
    match question {
        Question::Show => ask_once(alloc, asker, Request::Show, is_json, out),
        Question::Counters => ask_once(alloc, asker, Request::Counters, is_json, out),
        Question::Keys => ask_once(alloc, asker, Request::Keys, is_json, out),
        Question::Traffic => ask_once(alloc, asker, Request::Traffic, is_json, out),
        Question::About => ask_once(alloc, asker, Request::About, is_json, out),
        Question::Stop => ask_stop(alloc, asker, out),
        Question::Apply(file) => apply_file(rt, alloc, asker, file, out),
    }
}
