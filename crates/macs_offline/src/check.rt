//! `check`: whether the commands of a file can be read, and if not, its first fault; and how an
//! endpoint would answer them.

ghost use Rattle.std.specs.Prelude.{◌≡◌, ◌≢◌, ◌⊎◌, ◌++◌, List, Option, true, IfErr, IfOk};
ghost use Rattle.std.specs.Prelude.{string_bytes};
ghost use Rattle.std.specs.Io.KnownBytes.{Appends};
ghost use Rattle.macs_config.specs.declared.refusal.Refusal.{Refusal};
ghost use Rattle.macs_offline.specs.Applying.{outcomes_status};
ghost use Rattle.macs_offline.specs.Checking.{CheckEnds, Checks, count_line};
ghost use Rattle.macs_cli.specs.FileModes.{mode_warning};
ghost use Rattle.macs_offline.specs.KeyLists.{SaysSpent, spent_text};
ghost use Rattle.macs_offline.specs.Trying.{TrialFails, TriesIn, trial_report};

use crate::command_file::checked_commands;
use crate::key_list::{KeyFault, KeyList};
use crate::trial::{outcomes_status, trial_report, try_in};
use macs_cli::{
    CaptureFile, Failure, Line, Status, Stream, append_count, failure_saying, print, print_mode,
    print_octets,
};
use macs_config::Command;
use macs_fields::Sci;
use std::alloc::{AllocError, Global};
use std::rt::Files;

/// The line with the number of commands.
fn count_line(count: usize) -> Line
    ensures { result.items ≡ count_line count }
{
    let mut line = Line::new();
    append_count(&mut line, "", count as u64);
    let word = if count == 1 {
        " command\n"
    } else {
        " commands\n"
    };
    line.try_extend_from_slice(word.as_bytes()).unwrap();
    line
}

/// Prints the number of commands, and a warning about the mode of their file.
fn print_count<W: Stream>(count: usize, mode: Option<u32>, out: &mut W) -> Result<Status, Failure>
    ensures printed { IfOk result (λ status. Appends (W.contents out.old) (W.contents out.new)
        (count_line count ++ mode_warning mode) × (status ≡ Status.Done)) }
    ensures failed { IfErr result (λ failure. failure ≡ Failure.Output) }
    ensures broken { IfErr result (λ failure. W.failed out.new ≡ true) }
{
    print_octets(out, count_line(count).as_slice())?;
    print_mode(mode, out)?;
    Ok(Status::Done)
}

/// The message about the command with this number, counting from 1, whose key belonged to an
/// endpoint that is gone.
fn spent_text(alloc: Global, at: usize) -> Result<String, AllocError>
    ensures { IfOk result (λ text. string_bytes text ≡ spent_text at) }
{
    format!(in alloc; "command {at} key: an earlier disk file of this name had it")
}

/// Looks up the keys of these commands in the list beside a disk file. Fails with `Said` if one of
/// them belonged to an endpoint that is gone, or if the list cannot be read; or with `Memory`.
fn refuse_spent<T: Files>(
    rt: &T,
    alloc: Global,
    disk: &str,
    commands: &[Command],
) -> Result<(), Failure>
    ensures { IfErr result (SaysSpent commands.now) }
{
    let list = KeyList { rt, alloc, disk };
    match list.first_spent(commands) {
        Ok(None) => Ok(()),
        Ok(Some(at)) => Err(failure_saying(spent_text(alloc, at))),
        Err(KeyFault::Memory) => Err(Failure::Memory),
        Err(KeyFault::Spent | KeyFault::File) => {
            let text = String::from_str(alloc, "key list: cannot be read");
            Err(failure_saying(text))
        }
    }
}

/// Prints how the endpoint on the disk in another file would answer these commands of a file, if it
/// is the end that they are for, and a warning about the mode of their file. Fails as `try_in`
/// does, then as `refuse_spent`, and with `Memory`, before anything is printed.
fn print_trial<T: Files, W: Stream>(
    rt: &T,
    alloc: Global,
    disk: &str,
    end: Option<Sci>,
    commands: &[Command],
    mode: Option<u32>,
    out: &mut W,
) -> Result<Status, Failure>
where
    T::File: CaptureFile,
    ensures printed { IfOk result
        (λ status. (outcomes : List (Option Refusal))
        × TriesIn T.File.file end commands.now outcomes
        × Appends (W.contents out.old) (W.contents out.new)
        (trial_report outcomes ++ mode_warning mode)
        × (status ≡ outcomes_status outcomes)) }
    ensures ended { IfErr result (λ failure. (failure ≡ Failure.Output) ⊎ (failure ≡ Failure.Memory)
        ⊎ TrialFails T.File.file disk.now end commands.now failure
        ⊎ SaysSpent commands.now failure) }
    ensures silent { IfErr result (λ failure. failure ≢ Failure.Output → out.new ≡ out.old) }
    ensures broken { IfErr result (λ failure. failure ≡ Failure.Output → W.failed out.new ≡ true) }
{
    let outcomes = try_in(rt, alloc, disk, end, commands)?;
    refuse_spent(rt, alloc, disk, commands)?;
    let text = trial_report(alloc, outcomes.as_slice())?;
    print(out, text.as_str())?;
    print_mode(mode, out)?;
    Ok(outcomes_status(outcomes.as_slice()))
}

/// `check`: prints how many commands a file has, or how the endpoint on the disk in a file would
/// answer each of them, and the mode of the command file if others can read it. Neither file is
/// changed. Fails with `Said`, with the reason if the command file cannot be opened or read, else
/// with its first fault; then, with a disk, as `try_in` does, and with `Said` if a key of its
/// commands belonged to an endpoint that is gone; with `Memory`; and with `Output` if a line cannot
/// be printed.
pub fn check<T: Files, W: Stream>(
    rt: &T,
    alloc: Global,
    path: &str,
    disk: Option<&str>,
    out: &mut W,
) -> Result<Status, Failure>
where
    T::File: CaptureFile,
    ensures printed { IfOk result (Checks T.File.file T.File.remaining disk.entry
        (W.contents out.old) (W.contents out.new)) }
    ensures ended { IfErr result (CheckEnds T.File.file T.File.remaining path.now disk.entry) }
    ensures silent { IfErr result (λ failure. failure ≢ Failure.Output → out.new ≡ out.old) }
    ensures broken { IfErr result (λ failure. failure ≡ Failure.Output → W.failed out.new ≡ true) }
{
    let mut mode = None;
    let told = checked_commands(rt, alloc, path, &mut mode)?;
    let commands = told.commands.as_slice();
    match disk {
        None => print_count(commands.len(), mode, out),
        Some(disk) => print_trial(rt, alloc, disk, told.end, commands, mode, out),
    }
}
