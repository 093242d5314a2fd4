//! A relay without a desk.

ghost use Rattle.macs_endpoint.specs.Lives.{LivesOn};
ghost use Rattle.macs_edge.specs.Relaying.{IsRelayed, empty_lane, relay_of};

use crate::attending::{CommandEnd, Desk, Order, attend};
use crate::relaying::RelaySummary;
use crate::wire::Wire;
use macs_disk::SectorDisk;
use macs_endpoint::{Endpoint, RefillFault, SubmitFault, Ticket};

/// What a relay does after a turn in which it had nothing to do.
pub trait Idle {
    ghost use Rattle.std.specs.Prelude.{◌≡◌, ℕ, Option, None};
    ghost use Rattle.macs_edge.specs.Resting.{with_sleeps};

    /// How often it slept, if known.
    ghost sleeps: { Self → Option ℕ } = { λ _. None };

    /// Sleeps until there may be something to do, but only for a bounded time.
    fn idle(&mut self)
        ensures { sleeps self.new ≡ with_sleeps (sleeps self.old) 1 };

    /// Sleeps until the disk may have answered, for at most a millisecond.
    fn pause(&mut self)
        ensures { self.new ≡ self.old }
    {}
}

/// An `Idle` that never sleeps.
#[derive(Drop)]
struct Awake;

impl Idle for Awake {
    fn idle(&mut self) {}
}

/// The desk of a relay without clients: the relay continues before each turn, and sleeps after each
/// quiet one.
#[derive(Drop)]
pub struct Unattended<I> {
    pub idle: I,
}

impl<I: Idle, D: SectorDisk, P: Wire, C: Wire> Desk<D, P, C> for Unattended<I> {
    ghost use Rattle.macs_edge.specs.Resting.{PassesUnattended};

    ghost hears = { λ old event new.
        PassesUnattended event (I.sleeps old.idle) (I.sleeps new.idle) };

    fn next(
        &mut self,
        _endpoint: &Endpoint<D>,
        _controlled: &P,
        _common: &C,
        _quiet: bool,
    ) -> Order {
        Order::Go
    }

    fn took(&mut self, _answer: Result<Ticket, SubmitFault>) {}

    fn answered(&mut self, _ticket: Ticket, _end: CommandEnd) {}

    fn rest(&mut self) {
        self.idle.idle();
    }

    fn pause(&mut self) {
        self.idle.pause();
    }
}

/// Relays frames between two wires, for `turns` turns. In each turn a plain frame is taken from the
/// controlled wire, protected, and sent on the common wire; then a frame is taken from the common
/// wire, and sent on the controlled wire if it is delivered; then the disk work advances by one
/// `step`, if there is any: at most one device call comes between two frames. A turn in which the
/// disk has not answered a call has no step; over a prompt disk each has one. A frame that waits
/// for packet numbers stays in its lane for the next turn, and no other is taken on its side. No
/// frame is sent twice, not even after a failed send.
///
/// Ends with the first turn whose step is refused, with the fault of the same name: the frames of
/// that turn were submitted by then, and those that passed were sent. What a step reports about
/// submitted commands is not kept. No call blocks: if no frame arrives a turn is soon over. Nothing
/// is allocated: three frames are in arrays.
pub fn relay<D: SectorDisk, P: Wire, C: Wire>(
    endpoint: &mut Endpoint<D>,
    controlled: &mut P,
    common: &mut C,
    turns: u64,
) -> Result<RelaySummary, RefillFault>
    ensures relayed { IsRelayed D.disk turns
        (relay_of endpoint.old (P.state controlled.old) (C.state common.old) empty_lane empty_lane)
        result
        endpoint.new (P.state controlled.new) (C.state common.new) }
    ensures lives { LivesOn D.disk endpoint.old endpoint.new }
{
    let mut nobody = Unattended { idle: Awake };
    attend(endpoint, controlled, common, &mut nobody, turns)
}
