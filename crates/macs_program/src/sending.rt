//! Commands for a relay, sent over any connection, one after another.

ghost use Rattle.std.specs.Prelude.{◌≡◌, ◌≢◌, ◌++◌, ℕ, List, Option, None, true, is_some, codes};
ghost use Rattle.std.specs.Prelude.{IfErr, IfOk, IfSome, MatchOption, Ok};
ghost use Rattle.std.specs.Io.KnownBytes.{Appends};
ghost use Rattle.macs_config.specs.declared.refusal.Refusal.{Refusal};
ghost use Rattle.macs_control.specs.Asking.{conversation_of};
ghost use Rattle.macs_offline.specs.Applying.{outcome_line};
ghost use Rattle.macs_program.specs.Asking.{AppliesEach, AsksOne, EndsAsking, IsOutcome};
ghost use Rattle.macs_program.specs.Asking.{LacksOutcome, refusal_line};
ghost use Rattle.macs_texts.specs.Lines.{line};
ghost use Rattle.macs_texts.specs.Refusals.{refusal_name};

use crate::answering::{answer_to, failure_in};
use macs_cli::{Failure, Status, Stream, print_octets};
use macs_commands::requests::Request;
use macs_config::{Command, Refusal};
use macs_control::{Answer, Asker, Connection};
use macs_offline::{outcome_line, status_after};
use macs_texts::refusal_name;
use std::alloc::Global;

/// Each reason for which a command is refused.
const REFUSALS: [Refusal; 12] = [
    Refusal::StartRange,
    Refusal::OffsetChoice,
    Refusal::OwnSci,
    Refusal::EndStationSci,
    Refusal::NoChannel,
    Refusal::ChannelTaken,
    Refusal::ChannelsFull,
    Refusal::SlotTaken,
    Refusal::SlotEmpty,
    Refusal::InUse,
    Refusal::KeySpent,
    Refusal::SpentFull,
];

/// The name in a line that refuses a command.
fn refused_name(text: &[u8]) -> Option<&[u8]>
    ensures { MatchOption result ((name : List ℕ) → text.now ≢ line (codes "refused " ++ name))
        (λ name. text.now ≡ line (codes "refused " ++ name.now)) }
{
    text.strip_prefix(b"refused ")?.strip_suffix(b"\n")
}

/// The refusal with this name.
fn refusal_named(name: &[u8]) -> Option<Refusal>
    ensures found { IfSome result (λ refusal. name.now ≡ refusal_name refusal) }
    ensures none { result ≡ None → (refusal : Refusal) → name.now ≢ refusal_name refusal }
{
    for refusal in REFUSALS {
        if refusal_name(refusal).as_bytes() == name {
            return Some(refusal);
        }
    }
    None
}

/// The refusal with this line.
fn refusal_in(text: &[u8]) -> Option<Refusal>
    ensures found { IfSome result (λ refusal. text.now ≡ refusal_line refusal) }
    ensures none { result ≡ None → (refusal : Refusal) → text.now ≢ refusal_line refusal }
{
    let name = refused_name(text)?;
    refusal_named(name)
}

/// A relay's verdict on a command, by its answer: accepted or refused. Fails if the answer is
/// neither.
fn outcome_in(answer: &Answer) -> Result<Option<Refusal>, Failure>
    ensures { IsOutcome answer.now.status answer.now.text.items result }
{
    match answer.status {
        0 => Ok(None),
        3 => match refusal_in(answer.text.as_slice()) {
            Some(refusal) => Ok(Some(refusal)),
            None => Err(Failure::Control),
        },
        status => Err(failure_in(status)),
    }
}

/// Sends a command to a relay, which accepts or refuses it. Fails as `answer_to` does, and if the
/// answer is neither.
fn outcome_from<S: Connection>(
    alloc: Global,
    asker: &mut Asker<S>,
    command: Command,
) -> Result<Option<Refusal>, Failure>
    ensures asked { IfOk result (λ outcome. AsksOne (conversation_of S.link asker.old) command
        (Ok outcome) (conversation_of S.link asker.new)) }
    ensures failed { IfErr result (λ failure. LacksOutcome (conversation_of S.link asker.old)
        command failure (conversation_of S.link asker.new)) }
{
    let answer = answer_to(alloc, asker, &Request::Apply(command))?;
    outcome_in(&answer)
}

/// Sends a command to a relay, prints its line once it is answered, and returns whether it was
/// refused.
fn apply_one<S: Connection, W: Stream>(
    alloc: Global,
    asker: &mut Asker<S>,
    at: usize,
    command: Command,
    out: &mut W,
) -> Result<bool, Failure>
    ensures printed { IfOk result (λ refused. (outcome : Option Refusal)
        × (refused ≡ is_some outcome)
        × AsksOne (conversation_of S.link asker.old) command (Ok outcome)
        (conversation_of S.link asker.new)
        × Appends (W.contents out.old) (W.contents out.new) (outcome_line at outcome)) }
    ensures ended { IfErr result (λ failure. EndsAsking (conversation_of S.link asker.old) command
        failure (conversation_of S.link asker.new)) }
    ensures silent { IfErr result (λ failure. failure ≢ Failure.Output → out.new ≡ out.old) }
    ensures broken { IfErr result (λ failure. failure ≡ Failure.Output → W.failed out.new ≡ true) }
{
    let outcome = outcome_from(alloc, asker, command)?;
    print_octets(out, outcome_line(at, outcome).as_slice())?;
    Ok(outcome.is_some())
}

/// Sends commands to a relay, one after another, and prints a line for each once it is answered.
pub fn apply_each<S: Connection, W: Stream>(
    alloc: Global,
    asker: &mut Asker<S>,
    commands: &[Command],
    out: &mut W,
) -> Result<Status, Failure>
    ensures { AppliesEach W.contents W.failed commands.now (conversation_of S.link asker.old)
        out.old result (conversation_of S.link asker.new) out.new }
{
    let mut status = Status::Done;
    for i in 0..commands.len() {
        let is_refused = apply_one(alloc, asker, i + 1, commands[i], out)?;
        status = status_after(status, is_refused);
    }
    Ok(status)
}
