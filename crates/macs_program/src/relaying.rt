//! Frames between two wires through an endpoint, and the line that says what became of them.

ghost use Rattle.std.specs.Prelude.{◌≡◌, List, Result, true, IfErr, IfOk};
ghost use Rattle.std.specs.Io.KnownBytes.{Appends};
ghost use Rattle.macs_edge.specs.Attending.{IsAttended};
ghost use Rattle.macs_commands.specs.InTurn.{InTurn};
ghost use Rattle.macs_edge.specs.Relaying.{empty_lane, relay_of};
ghost use Rattle.macs_edge.specs.declared.attending.DeskEvent.{DeskEvent};
ghost use Rattle.macs_edge.specs.declared.relaying.RelaySummary.{RelaySummary};
ghost use Rattle.macs_endpoint.specs.Value.{EndpointValue};
ghost use Rattle.macs_endpoint.specs.declared.fault.RefillFault.{RefillFault};
ghost use Rattle.macs_program.specs.Relaying.{Ends, RelaysAttended, RestsIf, is_planned, turns_of};
ghost use Rattle.macs_program.specs.Summing.{relay_line};

use crate::pacing::{is_planned, turns_of};
use macs_cli::{
    Failure, Line, Pace, Status, Stream, append_count, failure_of_refill, print_octets,
};
use macs_disk::SectorDisk;
use macs_edge::{Desk, RelaySummary, Wire, attend};
use macs_endpoint::{Endpoint, RestFault};
use macs_journal::JournalFault;

/// The last line of a relay.
fn relay_line(summary: RelaySummary) -> Line
    ensures { result.items ≡ relay_line summary }
{
    let mut line = Line::new();
    append_count(&mut line, "sent ", summary.sent);
    append_count(&mut line, " delivered ", summary.delivered);
    append_count(&mut line, " dropped ", summary.dropped);
    append_count(&mut line, " faults ", summary.faults);
    line.push(b'\n');
    line
}

/// Prints what became of the frames of a relay. Fails only with `Output`.
fn print_summary<W: Stream>(summary: RelaySummary, out: &mut W) -> Result<Status, Failure>
    ensures printed { IfOk result (λ status.
        Appends (W.contents out.old) (W.contents out.new) (relay_line summary)
        × (status ≡ Status.Done)) }
    ensures failed { IfErr result
        (λ failure. (failure ≡ Failure.Output) × (W.failed out.new ≡ true)) }
{
    print_octets(out, relay_line(summary).as_slice())?;
    Ok(Status::Done)
}

/// Has the endpoint rest after a planned end, so that its next opening skips no packet number. Fails
/// with `Disk` if a device call fails. If a command is still pending, or the journal's generation is
/// 2^64 - 1, there is no rest, and that is no failure: the next opening skips numbers as it does
/// after a power loss.
fn rest<D: SectorDisk>(endpoint: &mut Endpoint<D>) -> Result<(), Failure>
    ensures { RestsIf D.disk true endpoint.old result endpoint.new }
{
    match endpoint.rest() {
        Ok(()) | Err(RestFault::Busy | RestFault::GenerationsSpent) => Ok(()),
        Err(RestFault::Stopped) => Err(JournalFault::Stopped.into()),
        Err(RestFault::Disk) => Err(JournalFault::Disk.into()),
    }
}

/// Relays frames between two wires at this pace, attended by a desk, up to the end. If that is
/// planned the endpoint then rests. Fails with `Disk` at the first step that fails, of a
/// reservation or of a command, and if the rest fails.
fn relay_to_end<D: SectorDisk, P: Wire, C: Wire, K: Desk<D, P, C>>(
    endpoint: &mut Endpoint<D>,
    controlled: &mut P,
    common: &mut C,
    desk: &mut K,
    pace: Pace,
) -> Result<RelaySummary, Failure>
    ensures { (answer : Result RelaySummary RefillFault) × (events : List DeskEvent)
        × (relayed : EndpointValue D) × IsAttended D.disk (turns_of pace)
        (relay_of endpoint.old (P.state controlled.old) (C.state common.old) empty_lane empty_lane)
        events answer relayed (P.state controlled.new) (C.state common.new)
        × InTurn K.hears desk.old events desk.new
        × Ends D.disk (is_planned pace) answer relayed result endpoint.new }
{
    match attend(endpoint, controlled, common, desk, turns_of(pace)) {
        Ok(summary) => {
            if is_planned(pace) {
                rest(endpoint)?;
            }
            Ok(summary)
        }
        Err(fault) => Err(failure_of_refill(fault)),
    }
}

/// Relays frames between two wires as `relay_to_end` does, and then prints what became of them.
/// Fails as that does, with nothing printed; and with `Output` after the end of the relay, if the
/// line cannot be written.
pub fn relay_frames<D: SectorDisk, P: Wire, C: Wire, K: Desk<D, P, C>, W: Stream>(
    endpoint: &mut Endpoint<D>,
    controlled: &mut P,
    common: &mut C,
    desk: &mut K,
    pace: Pace,
    out: &mut W,
) -> Result<Status, Failure>
    ensures { RelaysAttended D.disk (λ events. InTurn K.hears desk.old events desk.new) W.contents
        W.failed pace
        (relay_of endpoint.old (P.state controlled.old) (C.state common.old) empty_lane empty_lane)
        out.old result endpoint.new (P.state controlled.new) (C.state common.new) out.new }
{
    let summary = relay_to_end(endpoint, controlled, common, desk, pace)?;
    print_summary(summary, out)
}
