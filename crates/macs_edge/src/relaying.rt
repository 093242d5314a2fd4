//! A turn of a relay: a frame each way between two wires through an endpoint.

ghost use Rattle.std.specs.Prelude.{◌≡◌, ◌↔◌, IsTrue, Some, None};
ghost use Rattle.macs_edge.specs.Relaying.{Carries, Fills, Forwards, HandsOver, Progresses};
ghost use Rattle.macs_edge.specs.Relaying.{TakesTurn, empty_lane, lane_value, one_left, relay_of};
ghost use Rattle.macs_edge.specs.Relaying.{summary_of, way_of};
ghost use Rattle.macs_edge.specs.Resting.{AllRest};

use crate::settling::{Outcome, Side, hand_in};
use crate::wire::{Got, Wire};
use macs_disk::SectorDisk;
use macs_endpoint::{Endpoint, Step, StepFault};
use macs_frame::FrameBuf;

/// What became of the frames that a relay took. Each number is at most 2^64 - 1.
#[derive(Clone, Copy, Debug, PartialEq, Eq)]
pub struct RelaySummary {
    /// Frames that were protected and sent on the common wire.
    pub sent: u64,
    /// Frames that were delivered and sent on the controlled wire.
    pub delivered: u64,
    /// Frames that were taken and did not pass: those that the endpoint refused or discarded, those
    /// of more than 9,216 octets, and those that still waited for packet numbers at the end.
    pub dropped: u64,
    /// Failed calls of the wires. A frame whose send fails is lost; its packet number stays used.
    pub faults: u64,
}

/// What became of the frames of one way.
#[derive(Clone, Copy, PartialEq, Eq)]
pub(crate) struct Tally {
    pub passed: u64,
    pub dropped: u64,
    pub faults: u64,
}

/// One way through an endpoint: the frame to submit next, and what became of those before it.
#[derive(Drop)]
pub(crate) struct Lane {
    pub frame: FrameBuf,
    /// Whether `frame` is to be submitted.
    pub is_full: bool,
    pub tally: Tally,
}

impl Lane {
    ghost use Rattle.std.specs.Prelude.{◌≡◌, ◌↔◌, IsTrue};
    ghost use Rattle.macs_edge.specs.Relaying.{empty_lane, lane_value};
    ghost use Rattle.macs_edge.specs.Resting.{WayRests};

    /// A lane that has taken no frame.
    pub(crate) fn new() -> Lane
        ensures { lane_value result ≡ empty_lane }
    {
        Lane {
            frame: FrameBuf::new(),
            is_full: false,
            tally: Tally {
                passed: 0,
                dropped: 0,
                faults: 0,
            },
        }
    }

    /// Whether the lane is empty, and nothing has been counted since.
    fn rests(&self, before: Tally) -> bool
        ensures { IsTrue result ↔ WayRests before (lane_value self.now) }
    {
        !self.is_full && self.tally == before
    }
}

/// Takes a frame from a wire into an empty lane.
fn fill<F: Wire>(from: &mut F, lane: &mut Lane)
    ensures { Fills (F.state from.old) (lane_value lane.old) (F.state from.new)
        (lane_value lane.new) }
{
    if lane.is_full {
        return;
    }
    let tally = &mut lane.tally;
    match from.receive(&mut lane.frame) {
        Ok(Got::Frame) => lane.is_full = true,
        Ok(Got::Nothing) => {}
        Ok(Got::TooLong) => tally.dropped = tally.dropped.saturating_add(1),
        Err(_) => tally.faults = tally.faults.saturating_add(1),
    }
}

/// Sends a frame that passes, once.
fn forward<T: Wire>(to: &mut T, frame: &[u8], tally: &mut Tally)
    ensures { Forwards (T.state to.old) frame.now tally.old (T.state to.new) tally.new }
{
    match to.send(frame) {
        Ok(()) => tally.passed = tally.passed.saturating_add(1),
        Err(_) => tally.faults = tally.faults.saturating_add(1),
    }
}

/// Submits the frame of a full lane. It stays there if it waits for packet numbers, or if the
/// endpoint is stopped.
fn hand_over<D: SectorDisk, T: Wire>(
    endpoint: &mut Endpoint<D>,
    side: Side,
    to: &mut T,
    lane: &mut Lane,
    out: &mut FrameBuf,
)
    ensures { (from : _) → HandsOver D.disk side
        (way_of endpoint.old from (T.state to.old) (lane_value lane.old))
        (way_of endpoint.new from (T.state to.new) (lane_value lane.new)) }
{
    if !lane.is_full {
        return;
    }
    endpoint.facts();
    match hand_in(endpoint, side, lane.frame.as_slice(), out) {
        Outcome::Passed => {
            lane.is_full = false;
            forward(to, out.as_slice(), &mut lane.tally);
        }
        Outcome::Dropped => {
            lane.is_full = false;
            lane.tally.dropped = lane.tally.dropped.saturating_add(1);
        }
        Outcome::Waiting | Outcome::Stopped => {}
    }
}

/// One way in one turn.
fn carry<D: SectorDisk, F: Wire, T: Wire>(
    endpoint: &mut Endpoint<D>,
    side: Side,
    from: &mut F,
    to: &mut T,
    lane: &mut Lane,
    out: &mut FrameBuf,
)
    ensures { Carries D.disk side
        (way_of endpoint.old (F.state from.old) (T.state to.old) (lane_value lane.old))
        (way_of endpoint.new (F.state from.new) (T.state to.new) (lane_value lane.new)) }
{
    fill(from, lane);
    hand_over(endpoint, side, to, lane, out);
}

/// How many frames are left in a lane.
fn left(lane: &Lane) -> u64
    ensures { result ≡ one_left (lane_value lane.now).waiting }
{
    u64::from(lane.is_full)
}

/// What became of the frames of both ways. A frame that is left in a lane counts as dropped.
pub(crate) fn summed(to_common: &Lane, to_controlled: &Lane) -> RelaySummary
    ensures { result ≡ summary_of (lane_value to_common.now) (lane_value to_controlled.now) }
{
    RelaySummary {
        sent: to_common.tally.passed,
        delivered: to_controlled.tally.passed,
        dropped: to_common
            .tally
            .dropped
            .saturating_add(to_controlled.tally.dropped)
            .saturating_add(left(to_common))
            .saturating_add(left(to_controlled)),
        faults: to_common
            .tally
            .faults
            .saturating_add(to_controlled.tally.faults),
    }
}

/// One step of the disk work. `None` while its device call has no answer.
fn progress<D: SectorDisk>(endpoint: &mut Endpoint<D>) -> Result<Option<Step>, StepFault>
    ensures { Progresses D.disk endpoint.old result endpoint.new }
{
    match endpoint.try_step() {
        Some(Ok(step)) => Ok(Some(step)),
        Some(Err(fault)) => Err(fault),
        None => Ok(None),
    }
}

/// One turn: a frame each way, and one step of the disk work, if the disk has answered.
pub(crate) fn turn<D: SectorDisk, P: Wire, C: Wire>(
    endpoint: &mut Endpoint<D>,
    controlled: &mut P,
    common: &mut C,
    to_common: &mut Lane,
    to_controlled: &mut Lane,
    out: &mut FrameBuf,
) -> Result<Option<Step>, StepFault>
    ensures { TakesTurn D.disk result
        (relay_of endpoint.old (P.state controlled.old) (C.state common.old)
        (lane_value to_common.old) (lane_value to_controlled.old))
        (relay_of endpoint.new (P.state controlled.new) (C.state common.new)
        (lane_value to_common.new) (lane_value to_controlled.new)) }
{
    carry(
        endpoint,
        Side::Controlled,
        controlled,
        common,
        to_common,
        out,
    );
    carry(
        endpoint,
        Side::Common,
        common,
        controlled,
        to_controlled,
        out,
    );
    endpoint.facts();
    progress(endpoint)
}

/// Whether a turn was quiet: its step found no work, or the disk has not answered; both lanes are
/// empty after it, and neither a frame nor a failed call of a wire was counted in it.
pub(crate) fn was_quiet(
    step: &Option<Step>,
    out_before: Tally,
    back_before: Tally,
    to_common: &Lane,
    to_controlled: &Lane,
) -> bool
    ensures { IsTrue result ↔ AllRest step.now out_before back_before
        (lane_value to_common.now) (lane_value to_controlled.now) }
{
    match step {
        Some(Step::Idle) | None => to_common.rests(out_before) && to_controlled.rests(back_before),
        Some(Step::Worked | Step::Reserved | Step::Done(_, _)) => false,
    }
}

/// Whether frames are held up after a turn: one waits in a lane, the disk has not answered, and
/// nothing was counted in the turn.
pub(crate) fn are_held_up(
    step: &Option<Step>,
    out_before: Tally,
    back_before: Tally,
    to_common: &Lane,
    to_controlled: &Lane,
) -> bool {
    step.is_none()
        && (to_common.is_full || to_controlled.is_full)
        && to_common.tally == out_before
        && to_controlled.tally == back_before
}
