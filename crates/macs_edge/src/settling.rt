//! A frame is submitted until it is settled.

ghost use Rattle.std.specs.Prelude.{◌≡◌, ◌<◌, ◌^◌, Bool, true, false, if◌then◌else◌, Some, None};
ghost use Rattle.std.specs.Prelude.{IfOk, IfErr};
ghost use Rattle.macs_endpoint.specs.Calls.{IsCall};
ghost use Rattle.macs_endpoint.specs.State.{Reply};
ghost use Rattle.macs_edge.specs.Settling.{Halts, HandsInAgain, IsJudged, Means, call_on};
ghost use Rattle.macs_edge.specs.Settling.{ending_of, is_passed};
ghost use Rattle.macs_edge.specs.Settling.{verdict_of};

use macs_disk::SectorDisk;
use macs_endpoint::{Endpoint, ProtectFault, RefillFault};
use macs_frame::FrameBuf;
use macs_rxsc::Verdict;
use macs_txsc::TxFault;

/// The side of an endpoint on which frames are submitted.
#[derive(Clone, Copy)]
pub enum Side {
    /// Plain frames, which are protected.
    Controlled,
    /// Frames from the network, which are received.
    Common,
}

/// What an answer means for the submitted frame.
#[derive(Clone, Copy)]
pub(crate) enum Outcome {
    /// A frame passes: it is in the buffer.
    Passed,
    /// It is left out.
    Dropped,
    /// It must be submitted again after a refill.
    Waiting,
    /// The endpoint is stopped.
    Stopped,
}

/// Submits a frame once, and notes the verdict, if there is one.
fn hand_in_noting<D: SectorDisk>(
    endpoint: &mut Endpoint<D>,
    side: Side,
    frame: &[u8],
    out: &mut FrameBuf,
    verdict: &mut Option<Verdict>,
) -> Outcome
    ensures { (reply : Reply)
        × IsCall D.disk endpoint.old (call_on side frame.now) reply endpoint.new
        × Means (call_on side frame.now) reply out.new.items result
        × (verdict.new ≡ verdict_of reply) }
{
    *verdict = None;
    match side {
        Side::Controlled => match endpoint.protect(frame, out) {
            Ok(_) => Outcome::Passed,
            Err(ProtectFault::Stopped) => Outcome::Stopped,
            Err(ProtectFault::Tx(TxFault::NoNumber)) => Outcome::Waiting,
            Err(ProtectFault::Tx(_)) => Outcome::Dropped,
        },
        Side::Common => match endpoint.receive(frame, out) {
            Ok(Verdict::Delivered(kind)) => {
                *verdict = Some(Verdict::Delivered(kind));
                Outcome::Passed
            }
            Ok(Verdict::Discarded(reason)) => {
                *verdict = Some(Verdict::Discarded(reason));
                Outcome::Dropped
            }
            Ok(Verdict::HeldBack) => {
                *verdict = Some(Verdict::HeldBack);
                Outcome::Waiting
            }
            Err(_) => Outcome::Stopped,
        },
    }
}

/// Submits a frame once.
pub(crate) fn hand_in<D: SectorDisk>(
    endpoint: &mut Endpoint<D>,
    side: Side,
    frame: &[u8],
    out: &mut FrameBuf,
) -> Outcome
    ensures { (reply : Reply)
        × IsCall D.disk endpoint.old (call_on side frame.now) reply endpoint.new
        × Means (call_on side frame.now) reply out.new.items result }
{
    let mut verdict = None;
    hand_in_noting(endpoint, side, frame, out, &mut verdict)
}

/// Whether the frame passes with this answer.
fn passes(outcome: Outcome) -> bool
    ensures { result ≡ is_passed outcome }
{
    matches!(outcome, Outcome::Passed)
}

/// How submitting a frame ends with an answer, unless it waits: whether the frame passes, or that
/// the endpoint is stopped.
fn ending_of(outcome: Outcome) -> Result<bool, RefillFault>
    ensures { result ≡ ending_of outcome }
{
    match outcome {
        Outcome::Passed => Ok(true),
        Outcome::Dropped | Outcome::Waiting => Ok(false),
        Outcome::Stopped => Err(RefillFault::Stopped),
    }
}

/// Reserves the packet numbers that a frame waits for, submits it again, and returns whether it
/// passes; the verdict is noted, if there is one. The frame does not wait again.
fn hand_in_again<D: SectorDisk>(
    endpoint: &mut Endpoint<D>,
    side: Side,
    frame: &[u8],
    out: &mut FrameBuf,
    verdict: &mut Option<Verdict>,
) -> Result<bool, RefillFault>
    ensures { HandsInAgain D.disk endpoint.old (call_on side frame.now) result
        out.new.items verdict.new
        endpoint.new }
{
    endpoint.facts();
    match endpoint.refill() {
        Ok(()) => {
            endpoint.facts();
            let again = hand_in_noting(endpoint, side, frame, out, verdict);
            Ok(passes(again))
        }
        Err(fault) => Err(fault),
    }
}

/// Submits a frame, and once more after a refill if it waits; returns whether a frame passes. The
/// verdict that settles it is noted, if there is one.
pub(crate) fn settle<D: SectorDisk>(
    endpoint: &mut Endpoint<D>,
    side: Side,
    frame: &[u8],
    out: &mut FrameBuf,
    verdict: &mut Option<Verdict>,
) -> Result<bool, RefillFault>
    ensures settled { IfOk result (λ passes. IsJudged D.disk endpoint.old (call_on side frame.now)
        (if passes then Some out.new.items else None) verdict.new endpoint.new) }
    ensures fault { IfErr result (λ fault.
        Halts D.disk endpoint.old (call_on side frame.now) fault endpoint.new) }
{
    endpoint.facts();
    let first = hand_in_noting(endpoint, side, frame, out, verdict);
    match first {
        Outcome::Waiting => hand_in_again(endpoint, side, frame, out, verdict),
        _ => ending_of(first),
    }
}
