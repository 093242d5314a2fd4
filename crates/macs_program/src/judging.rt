//! `validate --each`: a capture through an endpoint, with a line for the verdict on each frame.

ghost use Rattle.std.specs.Prelude.{◌≡◌, ◌≢◌, ◌⊎◌, ◌≤◌, ◌++◌, length, true, IfErr, IfOk, List, []};
ghost use Rattle.std.specs.Io.KnownBytes.{Appends};
ghost use Rattle.macs_edge.specs.CaptureRuns.{run_of};
ghost use Rattle.macs_edge.specs.Telling.{TellsAll, telling_of};
ghost use Rattle.macs_edge.specs.declared.capture_runs.Summary.{Summary};
ghost use Rattle.macs_edge.specs.declared.settling.Side.TheVariants as sides;
ghost use Rattle.macs_cli.specs.Failing.{failure_status};
ghost use Rattle.macs_offline.specs.Openings.{OpeningFails};
ghost use Rattle.macs_program.specs.CaptureFiles.{AsksInOrder};
ghost use Rattle.macs_program.specs.Judging.{DoesJudge, IsOfRun, JudgesCapture, JudgesIn};
ghost use Rattle.macs_program.specs.Judging.{JudgingEndsIn, PrintsEach, PrintsVerdicts, TellsLine};
ghost use Rattle.macs_program.specs.Judging.{ValidatesEach, verdict_line, verdict_lines};
ghost use Rattle.macs_program.specs.Summing.{pass_status, summary_line};
ghost use Rattle.macs_rxsc.specs.declared.verdict.Verdict.{Verdict};
ghost use Rattle.macs_texts.specs.Counting.{verdict_words};

use crate::captures::{Captures, SystemCaptures, open_both};
use crate::capturing::{flush_after, pass_status, summary_line};
use crate::task::{Task, with_file};
use macs_cli::{
    CaptureFile, Failure, Line, Status, Stream, append_count, append_text, print_octets,
};
use macs_disk::SectorDisk;
use macs_edge::{Side, Summary, Verdicts, run_validate_each};
use macs_endpoint::Endpoint;
use macs_pcap::{Sink, Source};
use macs_rxsc::Verdict;
use macs_texts::verdict_words;
use std::alloc::Global;
use std::rt::Files;

/// The word of a verdict.
fn word_of(verdict: Verdict) -> &'static str
    ensures word { result.now ≡ verdict_words verdict }
    ensures short { length result.now ≤ 12 }
{
    verdict_words(verdict)
}

/// The line of a verdict, with its number.
fn verdict_line(at: u64, verdict: Verdict) -> Line
    ensures { result.items ≡ verdict_line at verdict }
{
    let mut line = Line::new();
    append_count(&mut line, "", at);
    append_text(&mut line, " ");
    append_text(&mut line, word_of(verdict));
    line.push(b'\n');
    line
}

/// The lines of verdicts: how many were printed, and whether one could not be. After that no more
/// are printed.
#[derive(Clone, Copy)]
pub(crate) struct VerdictLines {
    pub count: u64,
    pub has_failed: bool,
}

impl<W: Stream> Verdicts<W> for VerdictLines {
    ghost use Rattle.macs_program.specs.Judging.{TellsLine};

    ghost tells = { TellsLine W.contents W.failed };

    fn tell(&mut self, to: &mut W, verdict: Verdict) {
        if self.has_failed {
            return;
        }
        self.count = self.count.saturating_add(1);
        match print_octets(to, verdict_line(self.count, verdict).as_slice()) {
            Ok(()) => {}
            Err(_) => self.has_failed = true,
        }
    }
}

/// Validates a whole capture, prints the line of each verdict, and flushes all that was written,
/// even if a fault ended the run. No command is pending.
fn run_judging<D: SectorDisk, R: Source, S: Sink, W: Stream>(
    alloc: Global,
    endpoint: &mut Endpoint<D>,
    source: &mut R,
    sink: &mut S,
    lines: &mut VerdictLines,
    out: &mut W,
) -> Result<Summary, Failure>
    requires { endpoint.old.waiting ≡ [] }
    ensures judged { (verdicts : List Verdict) × JudgesCapture D.disk
        (run_of endpoint.old (R.state source.old) (S.state sink.old)) result verdicts
        (run_of endpoint.new (R.state source.new) (S.state sink.new))
        × TellsAll (TellsLine W.contents W.failed) (telling_of lines.old out.old) verdicts
        (telling_of lines.new out.new) }
    ensures failed { IfErr result IsOfRun }
{
    let answer = run_validate_each(alloc, endpoint, source, sink, lines, out);
    flush_after(answer, sink)
}

/// The same, except that a line that could not be printed is the failure.
fn print_each<D: SectorDisk, R: Source, S: Sink, W: Stream>(
    alloc: Global,
    endpoint: &mut Endpoint<D>,
    source: &mut R,
    sink: &mut S,
    out: &mut W,
) -> Result<Summary, Failure>
    requires { endpoint.old.waiting ≡ [] }
    ensures { PrintsEach D.disk W.contents W.failed
        (run_of endpoint.old (R.state source.old) (S.state sink.old)) out.old result
        (run_of endpoint.new (R.state source.new) (S.state sink.new)) out.new }
{
    let mut lines = VerdictLines {
        count: 0,
        has_failed: false,
    };
    let answer = run_judging(alloc, endpoint, source, sink, &mut lines, out);
    let has_failed = lines.has_failed;
    if has_failed {
        return Err(Failure::Output);
    }
    answer
}

/// Validates a whole capture, prints the line of each verdict as the frames are validated, flushes
/// all that was written, and prints what became of the frames. A line that cannot be printed does
/// not end the run, which then fails with `Output`. Otherwise fails with the first fault of the
/// run: with `Capture` or `Memory` at the header or a record, with `Disk` at a reservation; without
/// a fault, with `Capture` if what was written cannot be flushed. The lines of all verdicts before
/// were printed then. No command is pending.
fn judge_frames<D: SectorDisk, R: Source, S: Sink, W: Stream>(
    alloc: Global,
    endpoint: &mut Endpoint<D>,
    is_all: bool,
    source: &mut R,
    sink: &mut S,
    out: &mut W,
) -> Result<Status, Failure>
    requires { endpoint.old.waiting ≡ [] }
    ensures { ValidatesEach D.disk W.contents W.failed is_all
        (run_of endpoint.old (R.state source.old) (S.state sink.old)) out.old result
        (run_of endpoint.new (R.state source.new) (S.state sink.new)) out.new }
{
    let summary = print_each(alloc, endpoint, source, sink, out)?;
    print_octets(out, summary_line(Side::Common, summary).as_slice())?;
    Ok(pass_status(is_all, summary))
}

/// Validates a capture by an endpoint into another capture, with a line for each verdict.
fn judge_between<C: Captures, D: SectorDisk, W: Stream>(
    captures: &mut C,
    alloc: Global,
    endpoint: &mut Endpoint<D>,
    is_all: bool,
    from: &str,
    to: &str,
    out: &mut W,
) -> Result<Status, Failure>
    requires { endpoint.old.waiting ≡ [] }
    ensures asks { AsksInOrder from.now to.now (C.asked captures.old)
        (C.asked captures.new) result }
    ensures judges { DoesJudge D.disk W.contents W.failed is_all endpoint.old out.old result
        endpoint.new out.new }
{
    let (mut input, mut output) = open_both(captures, from, to)?;
    judge_frames(alloc, endpoint, is_all, &mut input, &mut output, out)
}

/// Validates a capture in a file by an endpoint into another file, with a line for each verdict.
#[derive(Drop)]
struct JudgeFile<'a, T> {
    rt: &'a T,
    alloc: Global,
    is_all: bool,
    from: &'a str,
    to: &'a str,
}

impl<T: Files, D: SectorDisk, W: Stream> Task<D, W> for JudgeFile<'_, T>
where
    T::File: CaptureFile,
{
    ghost does = { λ task. DoesJudge D.disk W.contents W.failed task.is_all };

    #[inline(never)]
    fn run(self, endpoint: &mut Endpoint<D>, out: &mut W) -> Result<Status, Failure> {
        let is_all = self.is_all;
        let mut files = SystemCaptures {
            rt: self.rt,
            alloc: self.alloc,
        };
        judge_between(
            &mut files, self.alloc, endpoint, is_all, self.from, self.to, out,
        )
    }
}

/// `validate --each`: validates a capture, with a line for each verdict.
#[inline(never)]
pub fn judge<'a, T: Files, W: Stream>(
    rt: &'a T,
    alloc: Global,
    is_all: bool,
    disk: &str,
    from: &'a str,
    to: &'a str,
    out: &mut W,
) -> Result<Status, Failure>
where
    T::File: CaptureFile,
    ensures printed { IfOk result (λ status. (summary : Summary) × (verdicts : List Verdict)
        × JudgesIn T.File.file summary verdicts
        × Appends (W.contents out.old) (W.contents out.new)
        (verdict_lines 1 verdicts ++ summary_line sides.Common summary)
        × (status ≡ pass_status is_all summary)) }
    ensures ended { IfErr result
        (λ failure. OpeningFails T.File.file failure ⊎ JudgingEndsIn T.File.file failure) }
    ensures failed { IfErr result (λ failure. failure_status failure ≢ Status.Usage) }
    ensures front { IfErr result (λ failure. failure ≢ Failure.Output
        → PrintsVerdicts (W.contents out.old) (W.contents out.new)) }
    ensures broken { IfErr result (λ failure. failure ≡ Failure.Output → W.failed out.new ≡ true) }
{
    let task = JudgeFile {
        rt,
        alloc,
        is_all,
        from,
        to,
    };
    with_file(rt, alloc, disk, task, out)
}
