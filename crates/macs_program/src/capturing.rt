//! `protect` and `validate`: a capture through an endpoint.

ghost use Rattle.std.specs.Prelude.{◌≡◌, ◌≢◌, ◌⊎◌, true, [], IfErr, IfOk, Ok, Err};
ghost use Rattle.std.specs.Io.KnownBytes.{Appends};
ghost use Rattle.macs_edge.specs.CaptureRuns.{RunsOver, run_of};
ghost use Rattle.macs_edge.specs.declared.capture_runs.RunFault.{RunFault};
ghost use Rattle.macs_edge.specs.declared.capture_runs.Summary.{Summary};
ghost use Rattle.macs_program.specs.CaptureFiles.{AsksInOrder};
ghost use Rattle.macs_program.specs.Capturing.{EndsFlushed, EndsPass, PassesCapture};
ghost use Rattle.macs_program.specs.Endpoints.{PassEndsIn, PassesIn};
ghost use Rattle.macs_cli.specs.Failing.{IsNotBusyRun, failure_of_run, failure_status};
ghost use Rattle.macs_offline.specs.Openings.{OpeningFails};
ghost use Rattle.macs_program.specs.Summing.{pass_status, summary_line};
ghost use Rattle.macs_program.specs.Tasks.{DoesPass};

use crate::captures::{Captures, SystemCaptures, open_both};
use crate::task::{Task, with_file};
use macs_cli::{
    CaptureFile, Failure, Line, Status, Stream, append_count, failure_of_run, print_octets,
};
use macs_disk::SectorDisk;
use macs_edge::{RunFault, Side, Summary, run_protect, run_validate};
use macs_endpoint::Endpoint;
use macs_pcap::{Sink, Source};
use std::alloc::Global;
use std::rt::Files;

/// The last line of a run.
pub(crate) fn summary_line(side: Side, summary: Summary) -> Line
    ensures { result.items ≡ summary_line side summary }
{
    let mut line = Line::new();
    match side {
        Side::Controlled => {
            append_count(&mut line, "protected ", summary.passed);
            append_count(&mut line, " dropped ", summary.dropped);
        }
        Side::Common => {
            append_count(&mut line, "delivered ", summary.passed);
            append_count(&mut line, " discarded ", summary.dropped);
        }
    }
    line.push(b'\n');
    line
}

/// The status of a run over a capture: refused if all frames should pass and one did not.
pub(crate) fn pass_status(is_all: bool, summary: Summary) -> Status
    ensures { result ≡ pass_status is_all summary }
{
    if is_all && summary.dropped > 0 {
        Status::Refused
    } else {
        Status::Done
    }
}

/// Passes a whole capture through an endpoint. Nothing is flushed.
fn run_side<D: SectorDisk, R: Source, W: Sink>(
    alloc: Global,
    endpoint: &mut Endpoint<D>,
    side: Side,
    source: &mut R,
    sink: &mut W,
) -> Result<Summary, RunFault>
    ensures { RunsOver D.disk side
        (run_of endpoint.old (R.state source.old) (W.state sink.old)) result
        (run_of endpoint.new (R.state source.new) (W.state sink.new)) }
{
    match side {
        Side::Controlled => run_protect(alloc, endpoint, source, sink),
        Side::Common => run_validate(alloc, endpoint, source, sink),
    }
}

/// The summary of a run with this answer, or the failure for its fault.
fn summary_or_failure(answer: Result<Summary, RunFault>) -> Result<Summary, Failure>
    requires { IfErr answer IsNotBusyRun }
    ensures done { IfOk result (λ summary. answer ≡ Ok summary) }
    ensures failed { IfErr result
        (λ failure. (fault : RunFault) × (answer ≡ Err fault)
        × (failure ≡ failure_of_run fault)) }
{
    match answer {
        Ok(summary) => Ok(summary),
        Err(fault) => Err(failure_of_run(fault)),
    }
}

/// Flushes all that was written in a run with this answer, even if a fault ended it.
pub(crate) fn flush_after<W: Sink>(
    answer: Result<Summary, RunFault>,
    sink: &mut W,
) -> Result<Summary, Failure>
    requires { IfErr answer IsNotBusyRun }
    ensures ended { EndsFlushed answer result (W.state sink.old) (W.state sink.new) }
    ensures failed { IfErr result
        (λ failure. ((fault : RunFault) × (failure ≡ failure_of_run fault))
        ⊎ (failure ≡ Failure.Capture)) }
{
    let flushed = sink.flush();
    let summary = summary_or_failure(answer)?;
    match flushed {
        Ok(()) => Ok(summary),
        Err(_) => Err(Failure::Capture),
    }
}

/// Passes a whole capture through an endpoint, which has no pending command, and flushes all that
/// was written, even if a fault ended the run.
fn run_capture<D: SectorDisk, R: Source, W: Sink>(
    alloc: Global,
    endpoint: &mut Endpoint<D>,
    side: Side,
    source: &mut R,
    sink: &mut W,
) -> Result<Summary, Failure>
    requires { endpoint.old.waiting ≡ [] }
    ensures runs { PassesCapture D.disk side
        (run_of endpoint.old (R.state source.old) (W.state sink.old)) result
        (run_of endpoint.new (R.state source.new) (W.state sink.new)) }
    ensures failed { IfErr result
        (λ failure. ((fault : RunFault) × (failure ≡ failure_of_run fault))
        ⊎ (failure ≡ Failure.Capture)) }
{
    let answer = run_side(alloc, endpoint, side, source, sink);
    flush_after(answer, sink)
}

/// Passes a whole capture through an endpoint, flushes all that was written, and prints what became
/// of its frames. Fails with the first fault of the run: with `Capture` or `Memory` at the header
/// or a record, with `Disk` at a reservation; without a fault, with `Capture` if what was written
/// cannot be flushed. Nothing is printed then. Otherwise fails with `Output` if the line cannot be
/// written. No command is pending.
fn pass_frames<D: SectorDisk, R: Source, S: Sink, W: Stream>(
    alloc: Global,
    endpoint: &mut Endpoint<D>,
    side: Side,
    is_all: bool,
    source: &mut R,
    sink: &mut S,
    out: &mut W,
) -> Result<Status, Failure>
    requires { endpoint.old.waiting ≡ [] }
    ensures printed { IfOk result (λ status. (summary : Summary) × PassesCapture D.disk side
        (run_of endpoint.old (R.state source.old) (S.state sink.old)) (Ok summary)
        (run_of endpoint.new (R.state source.new) (S.state sink.new))
        × Appends (W.contents out.old) (W.contents out.new) (summary_line side summary)
        × (status ≡ pass_status is_all summary)) }
    ensures failed { IfErr result (λ failure. failure_status failure ≢ Status.Usage) }
    ensures ended { IfErr result (λ failure. EndsPass D.disk side
        (run_of endpoint.old (R.state source.old) (S.state sink.old)) failure
        (run_of endpoint.new (R.state source.new) (S.state sink.new))) }
    ensures silent { IfErr result (λ failure. failure ≢ Failure.Output → out.new ≡ out.old) }
    ensures broken { IfErr result (λ failure. failure ≡ Failure.Output → W.failed out.new ≡ true) }
{
    let summary = run_capture(alloc, endpoint, side, source, sink)?;
    print_octets(out, summary_line(side, summary).as_slice())?;
    Ok(pass_status(is_all, summary))
}

/// Passes a capture through an endpoint into another capture.
fn pass_between<C: Captures, D: SectorDisk, W: Stream>(
    captures: &mut C,
    alloc: Global,
    endpoint: &mut Endpoint<D>,
    side: Side,
    is_all: bool,
    from: &str,
    to: &str,
    out: &mut W,
) -> Result<Status, Failure>
    requires { endpoint.old.waiting ≡ [] }
    ensures asks { AsksInOrder from.now to.now (C.asked captures.old)
        (C.asked captures.new) result }
    ensures passes { DoesPass D.disk W.contents W.failed side is_all endpoint.old out.old result
        endpoint.new out.new }
{
    let (mut source, mut sink) = open_both(captures, from, to)?;
    pass_frames(alloc, endpoint, side, is_all, &mut source, &mut sink, out)
}

/// Passes a capture in a file through an endpoint into another file.
#[derive(Drop)]
struct PassFile<'a, T> {
    rt: &'a T,
    alloc: Global,
    side: Side,
    is_all: bool,
    from: &'a str,
    to: &'a str,
}

impl<T: Files, D: SectorDisk, W: Stream> Task<D, W> for PassFile<'_, T>
where
    T::File: CaptureFile,
{
    ghost does = { λ task. DoesPass D.disk W.contents W.failed task.side task.is_all };

    #[inline(never)]
    fn run(self, endpoint: &mut Endpoint<D>, out: &mut W) -> Result<Status, Failure> {
        let alloc = self.alloc;
        let mut captures = SystemCaptures { rt: self.rt, alloc };
        pass_between(
            &mut captures,
            alloc,
            endpoint,
            self.side,
            self.is_all,
            self.from,
            self.to,
            out,
        )
    }
}

/// `protect` and `validate`: passes a capture through an endpoint.
#[inline(never)]
pub fn pass<'a, T: Files, W: Stream>(
    rt: &'a T,
    alloc: Global,
    side: Side,
    is_all: bool,
    disk: &str,
    from: &'a str,
    to: &'a str,
    out: &mut W,
) -> Result<Status, Failure>
where
    T::File: CaptureFile,
    ensures printed { IfOk result (λ status. (summary : Summary)
        × PassesIn T.File.file side summary
        × Appends (W.contents out.old) (W.contents out.new) (summary_line side summary)
        × (status ≡ pass_status is_all summary)) }
    ensures ended { IfErr result (λ failure. OpeningFails T.File.file failure
        ⊎ PassEndsIn T.File.file side failure) }
    ensures failed { IfErr result (λ failure. failure_status failure ≢ Status.Usage) }
    ensures silent { IfErr result (λ failure. failure ≢ Failure.Output → out.new ≡ out.old) }
    ensures broken { IfErr result (λ failure. failure ≡ Failure.Output → W.failed out.new ≡ true) }
{
    let task = PassFile {
        rt,
        alloc,
        side,
        is_all,
        from,
        to,
    };
    with_file(rt, alloc, disk, task, out)
}
