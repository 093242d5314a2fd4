//! `apply`: the commands of a file, one after another.

ghost use Rattle.std.specs.Prelude.{◌≡◌, ◌≢◌, [], Option, is_some, true, if◌then◌else◌};
ghost use Rattle.std.specs.Prelude.{IfErr, IfOk, Err};
ghost use Rattle.std.specs.Io.KnownBytes.{Appends};
ghost use Rattle.macs_config.specs.declared.refusal.Refusal.{Refusal};
ghost use Rattle.macs_endpoint.specs.Calls.{IsCall};
ghost use Rattle.macs_endpoint.specs.State.{Commands, Ran};
ghost use Rattle.macs_endpoint.specs.declared.fault.CommandFault.{CommandFault};
ghost use Rattle.macs_offline.specs.Applying.{AppliesAll, AppliesSome, EndsRun};
ghost use Rattle.macs_offline.specs.Applying.{IsNotBusyCommand, answer_of, commit_fault, is_for};
ghost use Rattle.macs_offline.specs.Applying.{outcome_line, own_sci};

use itoa::Buffer;
use macs_cli::{DiskFault, Failure, Line, Status, Stream, print_octets};
use macs_config::{Command, Refusal};
use macs_disk::SectorDisk;
use macs_endpoint::{CommandFault, Endpoint};
use macs_fields::Sci;
use macs_journal::JournalFault;
use macs_texts::refusal_name;

/// Whether a command file is for the end with this SCI: it names that end, or none.
fn is_for(end: Option<Sci>, sci: Sci) -> bool
    ensures { result ≡ is_for end sci }
{
    match end {
        Some(end) => end == sci,
        None => true,
    }
}

/// Whether a command file that names this end, or none, is for this endpoint.
pub fn is_own<D: SectorDisk>(endpoint: &Endpoint<D>, end: Option<Sci>) -> bool
    ensures { result ≡ is_for end (own_sci endpoint.now) }
{
    is_for(end, endpoint.identity().sci())
}

/// The line of a command: its number, and whether it was accepted or refused.
pub fn outcome_line(at: usize, outcome: Option<Refusal>) -> Line
    ensures { result.items ≡ outcome_line at outcome }
{
    let mut line = Line::new();
    let mut number = Buffer::new();
    line.try_extend_from_slice(number.format(at).as_bytes())
        .unwrap();
    match outcome {
        None => line.try_extend_from_slice(b" ok").unwrap(),
        Some(refusal) => {
            line.try_extend_from_slice(b" refused ").unwrap();
            line.try_extend_from_slice(refusal_name(refusal).as_bytes())
                .unwrap();
        }
    }
    line.push(b'\n');
    line
}

/// The result of a command that is not accepted: it is refused, or the run ends. The fault is not
/// `Busy`.
fn outcome_of(fault: CommandFault) -> Result<Option<Refusal>, DiskFault>
    requires { IsNotBusyCommand fault }
    ensures refused { IfOk result (λ outcome. answer_of outcome ≡ Err fault) }
    ensures failed { IfErr result (λ ends. commit_fault ends fault) }
{
    match fault {
        CommandFault::Refused(refusal) => Ok(Some(refusal)),
        CommandFault::Stopped => Err(DiskFault::Journal(JournalFault::Stopped)),
        CommandFault::GenerationsSpent => Err(DiskFault::Journal(JournalFault::GenerationsSpent)),
        CommandFault::Disk => Err(DiskFault::Journal(JournalFault::Disk)),
        CommandFault::Busy => unreachable!(),
    }
}

/// Gives a command to the endpoint, which accepts or refuses it. No other command is pending.
pub fn give<D: SectorDisk>(
    endpoint: &mut Endpoint<D>,
    command: Command,
) -> Result<Option<Refusal>, DiskFault>
    requires { endpoint.old.waiting ≡ [] }
    ensures settled { IfOk result (λ outcome.
        IsCall D.disk endpoint.old (Commands command) (Ran (answer_of outcome)) endpoint.new) }
    ensures failed { IfErr result (λ fault. (answer : CommandFault) × commit_fault fault answer
        × IsCall D.disk endpoint.old (Commands command) (Ran (Err answer)) endpoint.new) }
{
    match endpoint.command(command) {
        Ok(()) => Ok(None),
        Err(fault) => outcome_of(fault),
    }
}

/// Gives a command to the endpoint, prints its line, and returns whether it was refused.
fn apply_command<D: SectorDisk, W: Stream>(
    endpoint: &mut Endpoint<D>,
    at: usize,
    command: Command,
    out: &mut W,
) -> Result<bool, Failure>
    requires { endpoint.old.waiting ≡ [] }
    ensures applied { IfOk result
        (λ refused. (outcome : Option Refusal) × (refused ≡ is_some outcome)
        × IsCall D.disk endpoint.old (Commands command) (Ran (answer_of outcome)) endpoint.new
        × Appends (W.contents out.old) (W.contents out.new) (outcome_line at outcome)) }
    ensures ended { IfErr result
        (λ failure. EndsRun D.disk endpoint.old command failure endpoint.new) }
    ensures silent { IfErr result (λ failure. failure ≢ Failure.Output → out.new ≡ out.old) }
    ensures broken { IfErr result (λ failure. failure ≡ Failure.Output → W.failed out.new ≡ true) }
{
    let outcome = give(endpoint, command)?;
    let line = outcome_line(at, outcome);
    print_octets(out, line.as_slice())?;
    Ok(outcome.is_some())
}

/// The status of the run after one more command.
pub fn status_after(status: Status, is_refused: bool) -> Status
    ensures { result ≡ (if is_refused then Status.Refused else status) }
{
    if is_refused { Status::Refused } else { status }
}

/// Gives these commands to the endpoint, one after another, and prints a line for each once it is
/// answered: the line of an accepted command is its acknowledgement. A refused command changes
/// nothing, and the next one follows. Fails with `Disk` at the first command that is neither
/// accepted nor refused, without printing its line; and with `Output` at the first line that cannot
/// be written and flushed, although its command was answered.
pub fn apply_commands<D: SectorDisk, W: Stream>(
    endpoint: &mut Endpoint<D>,
    commands: &[Command],
    out: &mut W,
) -> Result<Status, Failure>
    requires { endpoint.old.waiting ≡ [] }
    ensures applied { IfOk result (λ status. AppliesAll D.disk endpoint.old commands.now
        (W.contents out.old) (W.contents out.new) status endpoint.new) }
    ensures ended { IfErr result (λ failure. AppliesSome D.disk endpoint.old commands.now
        (W.contents out.old) (W.contents out.new) failure endpoint.new) }
    ensures broken { IfErr result (λ failure. failure ≡ Failure.Output → W.failed out.new ≡ true) }
{
    let mut status = Status::Done;
    for i in 0..commands.len() {
        let is_refused = apply_command(endpoint, i + 1, commands[i], out)?;
        status = status_after(status, is_refused);
    }
    Ok(status)
}
