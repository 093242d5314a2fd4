//! `show`: the configuration and the packet numbers of an endpoint.

ghost use Rattle.std.specs.Prelude.{◌≡◌, ◌≢◌, ◌⊎◌, true, IfErr, IfOk};
ghost use Rattle.macs_cli.specs.Failing.{failure_status};
ghost use Rattle.macs_offline.specs.Openings.{OpeningFails};
ghost use Rattle.macs_program.specs.Endpoints.{ShowsIn};
ghost use Rattle.macs_program.specs.Tasks.{DoesShow};

use crate::task::{Task, with_file};
use macs_cli::{Failure, Status, Stream, print_octets};
use macs_commands::Paper;
use macs_disk::{DiskFile, SectorDisk};
use macs_endpoint::Endpoint;
use macs_texts::{REPORT_ROOM, show_lines};
use std::alloc::Global;
use std::rt::Files;

/// Prints the configuration and the packet numbers.
#[derive(Drop)]
struct ShowAll {
    alloc: Global,
}

impl<D: SectorDisk, W: Stream> Task<D, W> for ShowAll {
    ghost does = { λ _. DoesShow W.contents W.failed };

    #[inline(never)]
    fn run(self, endpoint: &mut Endpoint<D>, out: &mut W) -> Result<Status, Failure> {
        let mut paper = Paper::new(self.alloc, REPORT_ROOM)?;
        show_lines(&mut paper, endpoint);
        let Some(text) = paper.text() else {
            return Err(Failure::Memory);
        };
        print_octets(out, text)?;
        Ok(Status::Done)
    }
}

/// `show`: prints the configuration and the packet numbers.
#[inline(never)]
pub fn show<T: Files, W: Stream>(
    rt: &T,
    alloc: Global,
    disk: &str,
    out: &mut W,
) -> Result<Status, Failure>
where
    T::File: DiskFile,
    ensures printed { IfOk result (λ status.
        ShowsIn T.File.file (W.contents out.old) (W.contents out.new) × (status ≡ Status.Done)) }
    ensures ended { IfErr result (λ failure. OpeningFails T.File.file failure
        ⊎ (failure ≡ Failure.Memory) ⊎ (failure ≡ Failure.Output)) }
    ensures failed { IfErr result (λ failure. failure_status failure ≢ Status.Usage) }
    ensures silent { IfErr result (λ failure. failure ≢ Failure.Output → out.new ≡ out.old) }
    ensures broken { IfErr result (λ failure. failure ≡ Failure.Output → W.failed out.new ≡ true) }
{
    let task = ShowAll { alloc };
    with_file(rt, alloc, disk, task, out)
}
