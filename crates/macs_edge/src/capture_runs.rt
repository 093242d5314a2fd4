//! Captures through an endpoint.

ghost use Rattle.std.specs.Prelude.{◌≡◌, ◌+◌, ◌<◌, ◌^◌, ◌-◌};
ghost use Rattle.macs_endpoint.specs.Lives.{LivesOn};
ghost use Rattle.macs_edge.specs.CaptureRuns.{RunsOver, TakesNext, WritesCapture, one_more, run_of};
ghost use Rattle.macs_edge.specs.Telling.{TellsRecords, TellsRun, telling_of};

use crate::settling::{Side, settle};
use crate::telling::{Nobody, Verdicts, tell};
use macs_disk::SectorDisk;
use macs_endpoint::{Endpoint, RefillFault};
use macs_frame::FrameBuf;
use macs_pcap::{PcapFault, Sink, Source, read_header, read_record, write_header, write_record};
use macs_rxsc::Verdict;
use std::alloc::Allocator;

/// How many records of a capture were taken. The sum is at most 2^32 - 1.
#[derive(Clone, Copy, Debug, PartialEq, Eq)]
pub struct Summary {
    /// Records whose frame passed and was written.
    pub passed: u64,
    /// Records that were left out.
    pub dropped: u64,
}

/// Why a run ends before the end of its capture.
#[derive(Clone, Copy, Debug, PartialEq, Eq)]
pub enum RunFault {
    /// A fault of the input or output capture, or out of memory for a frame.
    Pcap(PcapFault),
    /// No packet numbers can be reserved for the next frame, or the endpoint is stopped.
    Device(RefillFault),
}

impl From<PcapFault> for RunFault {
    ghost use Rattle.std.specs.Prelude.{◌≡◌};
    ghost use Rattle.macs_edge.specs.declared.capture_runs.RunFault.TheVariants.{Pcap};

    ghost from_gives = { λ fault e. e ≡ Pcap fault };

    fn from(fault: PcapFault) -> RunFault {
        RunFault::Pcap(fault)
    }
}

impl From<RefillFault> for RunFault {
    ghost use Rattle.std.specs.Prelude.{◌≡◌};
    ghost use Rattle.macs_edge.specs.declared.capture_runs.RunFault.TheVariants.{Device};

    ghost from_gives = { λ fault e. e ≡ Device fault };

    fn from(fault: RefillFault) -> RunFault {
        RunFault::Device(fault)
    }
}

/// Takes the next record, after `count` others, and returns whether its frame passed, or `None` at
/// the end. The frame of the record is then in `frame`, the one that passes in `out`, and the
/// verdict in `verdict`, if there is one.
fn take_next<D: SectorDisk, R: Source, W: Sink, A: Allocator>(
    endpoint: &mut Endpoint<D>,
    side: Side,
    source: &mut R,
    sink: &mut W,
    big: bool,
    count: u32,
    frame: &mut Vec<u8, A>,
    out: &mut FrameBuf,
    verdict: &mut Option<Verdict>,
) -> Result<Option<bool>, RunFault>
    ensures { TakesNext D.disk side big count
        (run_of endpoint.old (R.state source.old) (W.state sink.old)) result verdict.new
        (run_of endpoint.new (R.state source.new) (W.state sink.new)) }
{
    let Some(stamp) = read_record(source, big, count, frame)? else {
        return Ok(None);
    };
    let passes = settle(endpoint, side, frame, out, verdict)?;
    if passes {
        write_record(sink, big, stamp, out.as_slice())?;
    }
    Ok(Some(passes))
}

/// One more record.
fn counted(summary: Summary, passes: bool) -> Summary
    requires { summary.passed + summary.dropped < 2 ^ 64 - 1 }
    ensures { result ≡ one_more passes summary }
{
    if passes {
        Summary {
            passed: summary.passed + 1,
            dropped: summary.dropped,
        }
    } else {
        Summary {
            passed: summary.passed,
            dropped: summary.dropped + 1,
        }
    }
}

/// Takes the records up to the end, or up to a fault, and reports the verdict on each.
fn run_records<D: SectorDisk, R: Source, W: Sink, A: Allocator, T, V: Verdicts<T>>(
    endpoint: &mut Endpoint<D>,
    side: Side,
    source: &mut R,
    sink: &mut W,
    big: bool,
    frame: &mut Vec<u8, A>,
    told: &mut V,
    to: &mut T,
) -> Result<Summary, RunFault>
    ensures { TellsRecords D.disk V.tells side big
        (run_of endpoint.old (R.state source.old) (W.state sink.old))
        (telling_of told.old to.old) result
        (run_of endpoint.new (R.state source.new) (W.state sink.new)) (telling_of told.new to.new) }
{
    let mut out = FrameBuf::new();
    let mut verdict = None;
    let mut count: u32 = 0;
    let mut summary = Summary {
        passed: 0,
        dropped: 0,
    };
    while let Some(passes) = take_next(
        endpoint,
        side,
        source,
        sink,
        big,
        count,
        frame,
        &mut out,
        &mut verdict,
    )? {
        tell(told, to, verdict);
        summary = counted(summary, passes);
        count += 1;
    }
    Ok(summary)
}

/// Takes a whole capture, and reports the verdict on each frame.
fn run_telling<D: SectorDisk, R: Source, W: Sink, A: Allocator, T, V: Verdicts<T>>(
    alloc: A,
    endpoint: &mut Endpoint<D>,
    side: Side,
    source: &mut R,
    sink: &mut W,
    told: &mut V,
    to: &mut T,
) -> Result<Summary, RunFault>
    ensures { TellsRun D.disk V.tells side
        (run_of endpoint.old (R.state source.old) (W.state sink.old))
        (telling_of told.old to.old) result
        (run_of endpoint.new (R.state source.new) (W.state sink.new)) (telling_of told.new to.new) }
{
    let header = read_header(source)?;
    write_header(sink, &header)?;
    let mut frame = Vec::new(alloc);
    run_records(
        endpoint, side, source, sink, header.big, &mut frame, told, to,
    )
}

/// Takes a whole capture without reporting verdicts: a run over it.
fn run<D: SectorDisk, R: Source, W: Sink, A: Allocator, T, V: Verdicts<T>>(
    alloc: A,
    endpoint: &mut Endpoint<D>,
    side: Side,
    source: &mut R,
    sink: &mut W,
    told: &mut V,
    to: &mut T,
) -> Result<Summary, RunFault>
    ensures runs { RunsOver D.disk side
        (run_of endpoint.old (R.state source.old) (W.state sink.old)) result
        (run_of endpoint.new (R.state source.new) (W.state sink.new)) }
    ensures tells { TellsRun D.disk V.tells side
        (run_of endpoint.old (R.state source.old) (W.state sink.old))
        (telling_of told.old to.old) result
        (run_of endpoint.new (R.state source.new) (W.state sink.new)) (telling_of told.new to.new) }
{
    run_telling(alloc, endpoint, side, source, sink, told, to)
}

/// Protects the frame of each record of a capture, one after another, and writes the capture of the
/// protected frames, each with its record's timestamp. Its header is written once the header of the
/// input was read. If there is no packet number, numbers are reserved by `refill` and the frame is
/// submitted again; a frame with a fault of its own (one below 14 octets, for example) is left out
/// and counted. The device is called only for refills.
///
/// Ends before the end of the input with `Pcap` and the first fault of the input, or with `Write`
/// if a write failed; or with `Device` and the fault of a refill, or with `Stopped` if the endpoint
/// is stopped. What was written is then a prefix of the whole capture. Whether anything is flushed
/// is not specified: a caller whose sink buffers octets flushes it, after a fault too. A buffer for
/// one frame grows with the longest so far, up to 262,144 octets.
pub fn run_protect<D: SectorDisk, R: Source, W: Sink, A: Allocator>(
    alloc: A,
    endpoint: &mut Endpoint<D>,
    source: &mut R,
    sink: &mut W,
) -> Result<Summary, RunFault>
    ensures runs { RunsOver D.disk Side.Controlled
        (run_of endpoint.old (R.state source.old) (W.state sink.old)) result
        (run_of endpoint.new (R.state source.new) (W.state sink.new)) }
    ensures writes { WritesCapture Side.Controlled
        (run_of endpoint.old (R.state source.old) (W.state sink.old)) result
        (run_of endpoint.new (R.state source.new) (W.state sink.new)) }
    ensures lives { LivesOn D.disk endpoint.old endpoint.new }
{
    run(
        alloc,
        endpoint,
        Side::Controlled,
        source,
        sink,
        &mut Nobody,
        &mut Nobody,
    )
}

/// Receives the frame of each record of a capture, one after another, and writes the capture of the
/// delivered frames, each with its record's timestamp. Its header is written once the header of the
/// input was read. If a frame is held back, numbers are reserved by `refill` and the frame is
/// submitted again; a frame that is discarded is left out and counted. The device is called only
/// for refills.
///
/// Ends before the end of the input as `run_protect` does, and flushes and allocates as it does.
pub fn run_validate<D: SectorDisk, R: Source, W: Sink, A: Allocator>(
    alloc: A,
    endpoint: &mut Endpoint<D>,
    source: &mut R,
    sink: &mut W,
) -> Result<Summary, RunFault>
    ensures runs { RunsOver D.disk Side.Common
        (run_of endpoint.old (R.state source.old) (W.state sink.old)) result
        (run_of endpoint.new (R.state source.new) (W.state sink.new)) }
    ensures writes { WritesCapture Side.Common
        (run_of endpoint.old (R.state source.old) (W.state sink.old)) result
        (run_of endpoint.new (R.state source.new) (W.state sink.new)) }
    ensures lives { LivesOn D.disk endpoint.old endpoint.new }
{
    run(
        alloc,
        endpoint,
        Side::Common,
        source,
        sink,
        &mut Nobody,
        &mut Nobody,
    )
}

/// Does what `run_validate` does, and reports the verdict on each frame, in order, once what passes
/// of it is written. A frame at which the run ends has no verdict. No verdict is stored.
pub fn run_validate_each<D: SectorDisk, R: Source, W: Sink, A: Allocator, T, V: Verdicts<T>>(
    alloc: A,
    endpoint: &mut Endpoint<D>,
    source: &mut R,
    sink: &mut W,
    told: &mut V,
    to: &mut T,
) -> Result<Summary, RunFault>
    ensures runs { RunsOver D.disk Side.Common
        (run_of endpoint.old (R.state source.old) (W.state sink.old)) result
        (run_of endpoint.new (R.state source.new) (W.state sink.new)) }
    ensures tells { TellsRun D.disk V.tells Side.Common
        (run_of endpoint.old (R.state source.old) (W.state sink.old))
        (telling_of told.old to.old) result
        (run_of endpoint.new (R.state source.new) (W.state sink.new)) (telling_of told.new to.new) }
    ensures writes { WritesCapture Side.Common
        (run_of endpoint.old (R.state source.old) (W.state sink.old)) result
        (run_of endpoint.new (R.state source.new) (W.state sink.new)) }
    ensures lives { LivesOn D.disk endpoint.old endpoint.new }
{
    run(alloc, endpoint, Side::Common, source, sink, told, to)
}
