//! The program, given its words, a reader and two streams.

ghost use Rattle.std.specs.Prelude.{◌≡◌, ◌≢◌, ◌⊎◌, ◌++◌, ◌∷◌, ℕ, List, [], Option, true, take};
ghost use Rattle.std.specs.Prelude.{IfErr, IfOk, IfSome, OnErr, OnOk, string_bytes};
ghost use Rattle.std.specs.Io.KnownBytes.{Appends};
ghost use Rattle.clap.specs.Words.{subcommand_of, takes};
ghost use Rattle.macs_offline.specs.Opened.{answer_text};
ghost use Rattle.macs_cli.specs.Failing.{failure_status};
ghost use Rattle.macs_program.specs.Inputs.{InputRead, read_of};
ghost use Rattle.macs_program.specs.Run.{Acts, FailsFor, HasPrinted, HasWrongValues, OpenFails};
ghost use Rattle.macs_program.specs.Run.{Performs, PrintedBefore, Prints};
ghost use Rattle.macs_program.specs.Run.{PrintsUnlessFailed, Replies, complaint};
ghost use Rattle.macs_cli.specs.Statuses.{code_of};
ghost use Rattle.macs_cli.specs.Words.{AreRefused, AsksForNothing, Names, macsecd, texts};
ghost use Rattle.macs_cli.specs.declared.words.action.Action.{Action};
ghost use Rattle.macs_cli.specs.declared.failure.Failure.{Failure};
ghost use Rattle.macs_cli.specs.declared.failure.LinkRefusal.{LinkRefusal};
ghost use Rattle.macs_cli.specs.declared.status.Status.{Status};

use crate::about::about;
use crate::apply::apply;
use crate::asking::ask;
use crate::capturing::pass;
use crate::format::format;
use crate::input::{Input, InputText};
use crate::judging::judge;
use crate::keep::keep;
use crate::relay::relay;
use crate::show::show;
use macs_cli::{
    Action, CaptureFile, DiskAction, Failure, FrameAction, InputFault, PrintFailed, Status, Stream,
    ToolAction, action_of, print, topic_of,
};
use macs_commands::secrets::wipe;
use macs_edge::Side;
use macs_offline::check::check;
use macs_offline::examine::examine;
use macs_offline::inspect::inspect;
use macs_offline::key::key;
use macs_offline::plan::plan;
use macs_offline::{Opened, answer_of};
use std::alloc::{AllocError, Allocator, Global};
use std::net::Net;
use std::random::RandomSource;
use std::rt::{Clock, Env, Files};

/// Reads an input, but no more than is needed.
fn read_input<R: Input>(input: &mut R) -> Result<InputText, Failure>
    ensures read { IfOk result
        (λ text. IfSome (R.remaining input.old) (λ octets. text.items ≡ take 20001 octets)) }
    ensures failed { IfErr result (λ failure. failure ≡ Failure.Input InputFault.Input) }
    ensures broken { OnErr result (R.failed input.new ≡ true) }
{
    let Ok(text) = input.read_text() else {
        return Err(Failure::Input(InputFault::Input));
    };
    Ok(text)
}

/// The line that `open` prints, with its line feed.
pub fn line_of<A: Allocator>(alloc: A, answer: &Opened) -> Result<String<A>, AllocError>
    ensures { IfOk result (λ line. string_bytes line ≡ answer_text answer.now ++ 10 ∷ []) }
{
    format!(in alloc; "{answer}\n")
}

/// `open`: reads an input, and prints the answer to it.
#[inline(never)]
fn open_input<R: Input, W: Stream>(
    alloc: Global,
    input: &mut R,
    out: &mut W,
) -> Result<Status, Failure>
    ensures printed { IfOk result (λ status. IfSome (R.remaining input.old)
        (λ octets. Prints octets (W.contents out.old) (W.contents out.new) status)) }
    ensures status { IfOk result (λ status. (status ≡ Status.Done) ⊎ (status ≡ Status.Refused)) }
    ensures failed { IfErr result (λ failure. failure_status failure ≡ Status.Fault) }
    ensures ended { IfErr result (OpenFails (read_of R.remaining R.failed input.old input.new)) }
    ensures silent { IfErr result (λ failure. failure ≢ Failure.Output → out.new ≡ out.old) }
    ensures broken { IfErr result (λ failure. failure ≡ Failure.Output → W.failed out.new ≡ true) }
{
    let mut text = read_input(input)?;
    let answer = answer_of(text.as_slice());
    wipe(text.as_mut_slice());
    let answer = answer?;
    print(out, line_of(alloc, &answer)?.as_str())?;
    Ok(answer.status())
}

/// Carries out an action.
fn perform<T: Files + Net + Clock + Env + RandomSource, R: Input, W: Stream>(
    rt: &T,
    alloc: Global,
    action: Action,
    input: &mut R,
    out: &mut W,
) -> Result<Status, Failure>
where
    T::File: CaptureFile,
    ensures performs { Performs T T.File.file T.File.remaining W.contents W.failed action.entry
        (read_of R.remaining R.failed input.old input.new) out.old result out.new }
    ensures unread { action.entry ≢ Action.Open → input.new ≡ input.old }
{
    match action {
        Action::Open => open_input(alloc, input, out),
        Action::OnDisk(action) => perform_on_disk(rt, alloc, action, out),
        Action::OnFrames(action) => perform_on_frames(rt, alloc, action, out),
        Action::Tool(action) => perform_tool(rt, alloc, action, out),
    }
}

/// Carries out an action on a disk file, without frames.
fn perform_on_disk<T: Files + Net + Env, W: Stream>(
    rt: &T,
    alloc: Global,
    action: DiskAction,
    out: &mut W,
) -> Result<Status, Failure>
where
    T::File: CaptureFile,
    ensures { (input : InputRead)
        → Performs T T.File.file T.File.remaining W.contents W.failed (Action.OnDisk action.entry)
        input out.old result out.new }
{
    match action {
        DiskAction::Format {
            disk,
            sci,
            tx_block,
            rx_block,
            block,
            is_over,
        } => format(
            rt, alloc, disk, sci, tx_block, rx_block, block, is_over, out,
        ),
        DiskAction::Apply { disk, file } => apply(rt, alloc, disk, file, out),
        DiskAction::Show { disk } => show(rt, alloc, disk, out),
        DiskAction::Keep { disk, socket } => keep(rt, alloc, disk, socket),
    }
}

/// Carries out an action that gives frames to an endpoint.
fn perform_on_frames<T: Files + Net + Clock + Env, W: Stream>(
    rt: &T,
    alloc: Global,
    action: FrameAction,
    out: &mut W,
) -> Result<Status, Failure>
where
    T::File: CaptureFile,
    ensures { (input : InputRead)
        → Performs T T.File.file T.File.remaining W.contents W.failed (Action.OnFrames action.entry)
        input out.old result out.new }
{
    match action {
        FrameAction::Protect {
            disk,
            input: from,
            output: to,
            is_all,
        } => pass(rt, alloc, Side::Controlled, is_all, disk, from, to, out),
        FrameAction::Validate {
            disk,
            input: from,
            output: to,
            is_all,
            is_each,
        } => {
            if is_each {
                judge(rt, alloc, is_all, disk, from, to, out)
            } else {
                pass(rt, alloc, Side::Common, is_all, disk, from, to, out)
            }
        }
        FrameAction::Relay {
            disk,
            controlled,
            common,
            running,
        } => relay(rt, alloc, disk, controlled, common, running, out),
    }
}

/// Carries out an action that changes no disk.
fn perform_tool<T: Files + Net + RandomSource, W: Stream>(
    rt: &T,
    alloc: Global,
    action: ToolAction,
    out: &mut W,
) -> Result<Status, Failure>
where
    T::File: CaptureFile,
    ensures { (input : InputRead)
        → Performs T T.File.file T.File.remaining W.contents W.failed
        (Action.Tool action.entry) input
        out.old result out.new }
{
    match action {
        ToolAction::Ask {
            path,
            question,
            is_json,
        } => ask(rt, alloc, path, question, is_json, out),
        ToolAction::Key { is_long } => key(rt, is_long, out),
        ToolAction::Inspect { input: from } => inspect(rt, alloc, from, out),
        ToolAction::Check { file, disk } => check(rt, alloc, file, disk, out),
        ToolAction::Plan { file, end, stage } => plan(rt, alloc, file, end, stage, out),
        ToolAction::Examine { disk, is_json } => examine(rt, alloc, disk, is_json, out),
        ToolAction::About => about(alloc, out),
    }
}

/// Carries out what the words ask for.
fn act<T: Files + Net + Clock + Env + RandomSource, R: Input, W: Stream>(
    rt: &T,
    alloc: Global,
    words: &[&str],
    input: &mut R,
    out: &mut W,
) -> Result<Status, Failure>
where
    T::File: CaptureFile,
    ensures { Acts T T.File.file T.File.remaining R.remaining R.failed W.contents W.failed
        (texts words.now) input.old out.old result input.new out.new }
{
    if let Some(topic) = topic_of(words) {
        print(out, topic.text())?;
        return Ok(Status::Done);
    }
    let action = action_of(alloc, words)?;
    perform(rt, alloc, action, input, out)
}

/// Prints the line of a failure.
fn complain<E: Stream>(failure: &Failure, err: &mut E) -> Result<(), PrintFailed>
    ensures printed { OnOk result
        (Appends (E.contents err.old) (E.contents err.new) (complaint failure.now)) }
    ensures broken { OnErr result (E.failed err.new ≡ true) }
{
    err.print(b"macsecd: ")?;
    err.print(failure.text().as_bytes())?;
    err.print(b"\n")
}

/// Prints what ended a run on standard error as one line, and returns the exit status of the
/// process, even if the line cannot be printed.
pub fn report<E: Stream>(failure: &Failure, err: &mut E) -> u8
    ensures status { result ≡ code_of (failure_status failure.now) }
    ensures printed { PrintsUnlessFailed (E.contents err.old) (E.contents err.new)
        (E.failed err.new)
        (complaint failure.now) }
{
    let _ = complain(failure, err);
    failure.status().code()
}

/// Runs the program, given the words without the program's own name, standard input, standard
/// output and standard error. Returns the exit status of the process. Faults are found in this
/// order: the words; the SCI, the blocks and the addresses; the disk file and its opening; the
/// other files or the binds from left to right; with `check` the command file before the disk file.
/// The order among files is tested, not proved.
pub fn run<T: Files + Net + Clock + Env + RandomSource, R: Input, W: Stream, E: Stream>(
    rt: &T,
    alloc: Global,
    words: &[&str],
    input: &mut R,
    out: &mut W,
    err: &mut E,
) -> u8
where
    T::File: CaptureFile,
    // The status is one of 0, 2, 3, 4 and 5.
    ensures status { (status : Status) × (result ≡ code_of status) }
    // At 0 and 3 the words ask for help or are accepted, the help or the output of the action is
    // written to standard output, and nothing is written to standard error. Or, at 3, a link is
    // refused: the words are accepted, this is the failure of their action, and its line is printed
    // on standard error, whole, unless that fails.
    ensures replied { (result ≡ 0) ⊎ (result ≡ 3) → ((status : Status) × (result ≡ code_of status)
        × Replies T T.File.file T.File.remaining (texts words.now)
        (read_of R.remaining R.failed input.old input.new) (W.contents out.old)
        (W.contents out.new) status × (err.new ≡ err.old))
        ⊎ ((refusal : LinkRefusal) × (result ≡ 3)
        × PrintsUnlessFailed (E.contents err.old) (E.contents err.new) (E.failed err.new)
        (complaint (Failure.Link refusal))
        × FailsFor T T.File.file T.File.remaining (texts words.now)
        (read_of R.remaining R.failed input.old input.new) (W.contents out.old)
        (W.contents out.new) (Failure.Link refusal)
        × PrintedBefore (texts words.now) (W.contents out.old) (W.contents out.new)) }
    // At 0 nothing is printed on standard error.
    ensures quiet { result ≡ 0 → err.new ≡ err.old }
    // At 2 the words ask for no help.
    ensures help { result ≡ 2 → AsksForNothing (texts words.now) }
    // The words are not accepted, or a value among them is not, and nothing is printed.
    ensures usage { result ≡ 2 → (AreRefused (texts words.now) ⊎ HasWrongValues (texts words.now))
        × (out.new ≡ out.old) }
    // At 4 the words are accepted and name another action than `open`, and nothing was printed
    // except, for `apply`, the lines of the commands before the fault.
    ensures disk { result ≡ 4 → (takes macsecd (texts words.now) ≡ true)
        × (action : Action) × Names (subcommand_of macsecd (texts words.now)) action
        × (action ≢ Action.Open)
        × HasPrinted action (W.contents out.old) (W.contents out.new) }
    // At 2, 4 and 5 there is a failure with this status, of the words or, if they are accepted, of
    // their action, and its line is printed on standard error, whole, unless that fails. Nothing
    // was printed on standard output before it except, for `apply`, `ask` and `inspect`, the lines
    // before the failure; if the failure is that of standard output, a print there failed.
    ensures reported { (result ≢ 0) → (result ≢ 3)
        → (failure : Failure) × (result ≡ code_of (failure_status failure))
        × PrintsUnlessFailed (E.contents err.old) (E.contents err.new) (E.failed err.new)
        (complaint failure)
        × FailsFor T T.File.file T.File.remaining (texts words.now)
        (read_of R.remaining R.failed input.old input.new) (W.contents out.old)
        (W.contents out.new) failure
        × (failure ≢ Failure.Output
        → PrintedBefore (texts words.now) (W.contents out.old) (W.contents out.new))
        × (failure ≡ Failure.Output → W.failed out.new ≡ true) }
    // If the words are not accepted, ask for help, or name another action than `open`, the input is
    // left unread.
    ensures unread { ((takes macsecd (texts words.now) ≡ true)
        × Names (subcommand_of macsecd (texts words.now)) Action.Open → ⊥) → input.new ≡ input.old }
{
    match act(rt, alloc, words, input, out) {
        Ok(status) => status.code(),
        Err(failure) => report(&failure, err),
    }
}
