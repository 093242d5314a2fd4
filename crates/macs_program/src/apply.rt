//! `apply`: the commands of a file, given to an endpoint.

ghost use Rattle.std.specs.Prelude.{◌≡◌, ◌≢◌, ◌⊎◌, List, Option, true, IfErr, IfOk};
ghost use Rattle.std.specs.Io.KnownBytes.{Appends};
ghost use Rattle.macs_config.specs.declared.refusal.Refusal.{Refusal};
ghost use Rattle.macs_offline.specs.Applying.{outcome_lines};
ghost use Rattle.macs_cli.specs.Failing.{failure_status};
ghost use Rattle.macs_offline.specs.Openings.{OpeningFails};
ghost use Rattle.macs_program.specs.Endpoints.{AppliesIn, BreaksOffIn};
ghost use Rattle.macs_program.specs.Tasks.{DoesApply};

use crate::task::{Task, with_file};
use macs_cli::{Failure, Status, Stream};
use macs_disk::{DiskFile, SectorDisk};
use macs_endpoint::Endpoint;
use macs_offline::{apply_commands, commands_of_file, is_own, note_keys};
use std::alloc::Global;
use std::rt::Files;

/// Applies the commands of a file that is for the endpoint.
#[derive(Drop)]
struct ApplyFile<'a, T> {
    rt: &'a T,
    alloc: Global,
    disk: &'a str,
    path: &'a str,
}

impl<T: Files, D: SectorDisk, W: Stream> Task<D, W> for ApplyFile<'_, T> {
    ghost does = { λ _. DoesApply T.File.remaining D.disk W.contents W.failed };

    #[inline(never)]
    fn run(self, endpoint: &mut Endpoint<D>, out: &mut W) -> Result<Status, Failure> {
        let told = commands_of_file(self.rt, self.alloc, self.path)?;
        if !is_own(endpoint, told.end) {
            return Err(Failure::Commands);
        }
        let commands = told.commands.as_slice();
        note_keys(self.rt, self.alloc, self.disk, commands)?;
        apply_commands(endpoint, commands, out)
    }
}

/// `apply`: applies the commands of a file that is for the endpoint. Once the endpoint is opened,
/// fails with `Commands`, with nothing applied, if the file cannot be read, has no valid commands
/// or is for another end, or its keys cannot be noted beside the disk file; and then as
/// `apply_commands` does.
#[inline(never)]
pub fn apply<'a, T: Files, W: Stream>(
    rt: &'a T,
    alloc: Global,
    disk: &'a str,
    file: &'a str,
    out: &mut W,
) -> Result<Status, Failure>
where
    T::File: DiskFile,
    ensures printed { IfOk result (λ status.
        AppliesIn T.File.file T.File.remaining (W.contents out.old) (W.contents out.new) status) }
    ensures ended { IfErr result (λ failure. OpeningFails T.File.file failure
        ⊎ BreaksOffIn T.File.file T.File.remaining (W.contents out.old) (W.contents out.new)
        failure) }
    ensures failed { IfErr result (λ failure. failure_status failure ≢ Status.Usage) }
    ensures lines { IfErr result (λ failure. failure ≢ Failure.Output
        → (outcomes : List (Option Refusal))
        × Appends (W.contents out.old) (W.contents out.new) (outcome_lines 1 outcomes)) }
    ensures broken { IfErr result (λ failure. failure ≡ Failure.Output → W.failed out.new ≡ true) }
{
    let task = ApplyFile {
        rt,
        alloc,
        disk,
        path: file,
    };
    with_file(rt, alloc, disk, task, out)
}
