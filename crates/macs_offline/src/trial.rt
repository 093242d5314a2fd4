//! `check FILE DISK`: how each command would be answered.

ghost use Rattle.std.specs.Prelude.{◌≡◌, [], true, None, IfErr, IfOk, OnOk, string_bytes};
ghost use Rattle.std.specs.declared.alloc.Global.{Global};
ghost use Rattle.macs_disk.specs.MemDisks.{disk_of};
ghost use Rattle.macs_disk.specs.declared.memory.MemDisk.{MemDisk};
ghost use Rattle.macs_endpoint.specs.Calls.{IsCall};
ghost use Rattle.macs_endpoint.specs.Opening.{IsOpening};
ghost use Rattle.macs_endpoint.specs.State.{Commands, Ran};
ghost use Rattle.macs_offline.specs.Applying.{Applies, answer_of, is_for, outcomes_status};
ghost use Rattle.macs_offline.specs.Applying.{own_sci};
ghost use Rattle.macs_offline.specs.Trying.{EndsOn, EndsTrial, FailsIn, LookFails, OwnEnds};
ghost use Rattle.macs_offline.specs.Trying.{TrialEnds, TrialFails, TriesIn, TriesOn};
ghost use Rattle.macs_offline.specs.Trying.{failure_in_memory, trial_line, trial_lines};
ghost use Rattle.macs_offline.specs.Trying.{trial_report, trial_text};

use crate::applying::{give, is_own, status_after};
use crate::disk_copy::copy_of;
use crate::files::{failure_of, open_shared};
use macs_cli::{CaptureFile, DiskFault, Failure, Status, failure_at_disk};
use macs_config::{Command, Refusal};
use macs_disk::{MemDisk, SectorDisk};
use macs_endpoint::{Endpoint, OpenRefused};
use macs_fields::Sci;
use macs_journal::JournalFault;
use macs_texts::refusal_name;
use std::alloc::{AllocError, Global};
use std::rt::Files;

/// The failure for a fault of an in-memory disk: its calls fail only when memory runs out.
pub fn failure_in_memory(fault: DiskFault) -> Failure
    ensures { result ≡ failure_in_memory fault }
{
    match fault {
        DiskFault::Journal(JournalFault::Disk) => Failure::Memory,
        _ => Failure::Disk(fault),
    }
}

/// Gives a command to the in-memory endpoint, and returns whether and why it was refused.
fn try_command<D: SectorDisk>(
    endpoint: &mut Endpoint<D>,
    command: Command,
) -> Result<Option<Refusal>, Failure>
    requires { endpoint.old.waiting ≡ [] }
    ensures tried { IfOk result (λ outcome.
        IsCall D.disk endpoint.old (Commands command) (Ran (answer_of outcome)) endpoint.new) }
    ensures ended { IfErr result (λ failure. EndsTrial D.disk endpoint.old command failure) }
{
    match give(endpoint, command) {
        Ok(outcome) => Ok(outcome),
        Err(fault) => Err(failure_in_memory(fault)),
    }
}

/// Gives these commands to the endpoint, one after another, and returns which were refused, and
/// why.
fn try_commands<D: SectorDisk>(
    alloc: Global,
    endpoint: &mut Endpoint<D>,
    commands: &[Command],
) -> Result<Vec<Option<Refusal>>, Failure>
    requires { endpoint.old.waiting ≡ [] }
    ensures tried { IfOk result
        (λ outcomes. Applies D.disk endpoint.old commands.now outcomes.items endpoint.new) }
    ensures ended { IfErr result (TrialEnds D.disk endpoint.old commands.now) }
{
    let mut outcomes = Vec::new(alloc);
    for i in 0..commands.len() {
        let outcome = try_command(endpoint, commands[i])?;
        let Ok(()) = outcomes.push(outcome) else {
            return Err(Failure::Memory);
        };
    }
    Ok(outcomes)
}

/// Gives these commands to the in-memory endpoint, if their file is for it. Fails with `OtherEnd`
/// if it is for another one.
fn try_own<D: SectorDisk>(
    alloc: Global,
    endpoint: &mut Endpoint<D>,
    end: Option<Sci>,
    commands: &[Command],
) -> Result<Vec<Option<Refusal>>, Failure>
    requires { endpoint.old.waiting ≡ [] }
    ensures own { IfOk result (λ outcomes. is_for end (own_sci endpoint.old) ≡ true) }
    ensures tried { IfOk result
        (λ outcomes. Applies D.disk endpoint.old commands.now outcomes.items endpoint.new) }
    ensures ended { IfErr result (OwnEnds D.disk endpoint.old end commands.now) }
{
    if !is_own(endpoint, end) {
        return Err(Failure::OtherEnd);
    }
    try_commands(alloc, endpoint, commands)
}

/// Gives these commands to an in-memory endpoint, if it was opened and their file is for it. It has
/// no pending command.
#[inline(never)]
fn try_opened(
    alloc: Global,
    mut opened: Result<Endpoint<MemDisk>, OpenRefused<MemDisk>>,
    end: Option<Sci>,
    commands: &[Command],
) -> Result<Vec<Option<Refusal>>, Failure>
    requires { IfOk opened (λ endpoint. endpoint.waiting ≡ []) }
    ensures tried { (copy : MemDisk Global) → IsOpening disk_of copy opened
        → IfOk result (λ outcomes. TriesOn disk_of copy end commands.now outcomes.items) }
    ensures ended { (copy : MemDisk Global) → IsOpening disk_of copy opened
        → IfErr result (EndsOn disk_of copy end commands.now) }
{
    match &mut opened {
        Ok(endpoint) => try_own(alloc, endpoint, end, commands),
        Err(refused) => Err(failure_in_memory(DiskFault::Journal(refused.fault))),
    }
}

/// Gives these commands to the endpoint on an in-memory disk. It is a function of its own, so that
/// the endpoint has one place on the stack.
#[inline(never)]
fn try_on(
    alloc: Global,
    copy: MemDisk,
    end: Option<Sci>,
    commands: &[Command],
) -> Result<Vec<Option<Refusal>>, Failure>
    ensures tried { IfOk result
        (λ outcomes. TriesOn disk_of copy end commands.now outcomes.items) }
    ensures ended { IfErr result (EndsOn disk_of copy end commands.now) }
{
    try_opened(alloc, Endpoint::open(copy), end, commands)
}

/// How the endpoint on the disk in an open file, which is only read, would answer these commands.
/// Fails as `copy_of` does, as opening an endpoint does, with `OtherEnd` if their file is for
/// another end, with `GenerationsSpent` if that would be the answer to a command, and with
/// `Memory`.
fn try_file<F: CaptureFile>(
    alloc: Global,
    file: &mut F,
    end: Option<Sci>,
    commands: &[Command],
) -> Result<Vec<Option<Refusal>>, Failure>
    ensures tried { IfOk result (λ outcomes. TriesIn F.file end commands.now outcomes.items) }
    ensures ended { IfErr result (FailsIn F.file end commands.now) }
{
    let copy = copy_of(alloc, file)?;
    try_on(alloc, copy.disk, end, commands)
}

/// How the endpoint on the disk in a file, which is opened only for reading, would answer these
/// commands. Fails with `DiskFile` and the reason if there is no regular file that can be opened,
/// or a writer has claimed it; then as `try_file` does.
pub fn try_in<T: Files>(
    rt: &T,
    alloc: Global,
    path: &str,
    end: Option<Sci>,
    commands: &[Command],
) -> Result<Vec<Option<Refusal>>, Failure>
where
    T::File: CaptureFile,
    ensures tried { IfOk result (λ outcomes. TriesIn T.File.file end commands.now outcomes.items) }
    ensures ended { IfErr result (TrialFails T.File.file path.now end commands.now) }
{
    match open_shared(rt, path) {
        Ok(mut file) => try_file(alloc, &mut file, end, commands),
        Err(error) => Err(failure_at_disk(alloc, path, error)),
    }
}

/// Checks that there is an endpoint on the disk in an open file, which is only read. Fails as
/// `try_file` does.
fn look_in<F: CaptureFile>(alloc: Global, file: &mut F) -> Result<(), Failure>
    ensures found { OnOk result (TriesIn F.file None [] []) }
    ensures ended { IfErr result (FailsIn F.file None []) }
{
    match try_file(alloc, file, None, &[]) {
        Ok(_) => Ok(()),
        Err(failure) => Err(failure),
    }
}

/// Checks that there is an endpoint on the disk in a file, which is opened only for reading. Fails
/// with `Disk` and `File` if there is no regular file that can be opened, or a writer has claimed
/// it; then as `try_file` does.
pub fn look_at<T: Files>(rt: &T, alloc: Global, path: &str) -> Result<(), Failure>
where
    T::File: CaptureFile,
    ensures found { OnOk result (TriesIn T.File.file None [] []) }
    ensures ended { IfErr result (LookFails T.File.file) }
{
    match open_shared(rt, path) {
        Ok(mut file) => look_in(alloc, &mut file),
        Err(error) => Err(failure_of(error, Failure::Disk(DiskFault::File))),
    }
}

/// The text for command `at`: accepted, or refused with this name.
fn trial_text(alloc: Global, at: usize, outcome: Option<Refusal>) -> Result<String, AllocError>
    ensures { IfOk result (λ text. string_bytes text ≡ trial_text at outcome) }
{
    match outcome {
        None => format!(in alloc; "{at} would be ok"),
        Some(refusal) => {
            let name = refusal_name(refusal);
            format!(in alloc; "{at} would be refused {name}")
        }
    }
}

/// The line of a command, with its number.
fn trial_line(alloc: Global, at: usize, outcome: Option<Refusal>) -> Result<String, AllocError>
    ensures { IfOk result (λ text. string_bytes text ≡ trial_line at outcome) }
{
    let mut text = trial_text(alloc, at, outcome)?;
    text.push('\n')?;
    Ok(text)
}

/// The lines of commands, each with its answer.
fn trial_lines(alloc: Global, outcomes: &[Option<Refusal>]) -> Result<String, AllocError>
    ensures { IfOk result (λ text. string_bytes text ≡ trial_lines 1 outcomes.now) }
{
    let mut text = String::new(alloc);
    for i in 0..outcomes.len() {
        text.push_str(trial_line(alloc, i + 1, outcomes[i])?.as_str())?;
    }
    Ok(text)
}

/// The report on all commands: a line for each, or that there are none.
pub fn trial_report(alloc: Global, outcomes: &[Option<Refusal>]) -> Result<String, AllocError>
    ensures { IfOk result (λ text. string_bytes text ≡ trial_report outcomes.now) }
{
    if outcomes.is_empty() {
        return String::from_str(alloc, "0 commands\n");
    }
    trial_lines(alloc, outcomes)
}

/// The status of a run that gave all its commands: refused if any was.
pub fn outcomes_status(outcomes: &[Option<Refusal>]) -> Status
    ensures { result ≡ outcomes_status outcomes.now }
{
    let mut status = Status::Done;
    for i in 0..outcomes.len() {
        status = status_after(status, outcomes[i].is_some());
    }
    status
}
