//! A relay that a desk attends: commands between its turns, and an end on request.

ghost use Rattle.std.specs.Prelude.{◌≡◌, List};
ghost use Rattle.macs_endpoint.specs.Lives.{LivesOn};
ghost use Rattle.macs_edge.specs.Attending.{AttendsTurns, IsAttended, Obeys};
ghost use Rattle.macs_commands.specs.InTurn.{InTurn};
ghost use Rattle.macs_edge.specs.Attending.{answers_of, failed_of, rests_after};
ghost use Rattle.macs_edge.specs.Relaying.{empty_lane, lane_value, relay_of};
ghost use Rattle.macs_edge.specs.declared.attending.DeskEvent.{DeskEvent};

use crate::relaying::{Lane, RelaySummary, are_held_up, summed, turn, was_quiet};
use crate::wire::Wire;
use macs_config::Command;
use macs_disk::SectorDisk;
use macs_endpoint::{CommandFault, Endpoint, RefillFault, Step, StepFault, SubmitFault, Ticket};
use macs_frame::FrameBuf;

/// What a desk orders before a turn.
#[derive(Clone, Copy)]
pub enum Order {
    /// The relay continues.
    Go,
    /// A command is submitted.
    Submit(Command),
    /// The relay ends.
    End,
}

/// The result of a command that was taken.
#[derive(Clone, Copy, Debug, PartialEq, Eq)]
pub enum CommandEnd {
    /// It is kept on the disk, or the reason why it is not.
    Done(Result<(), CommandFault>),
    /// The relay ended first: the command is still pending in the endpoint. If the endpoint is
    /// dropped, the next opening may find the first pending command, and finds none of the others.
    Failed,
}

/// What passes between a relay and its desk.
#[derive(Clone, Copy)]
pub enum DeskEvent {
    /// Whether the turn before was quiet, and the desk's order. Before the first turn this is
    /// `false`.
    Wanted(bool, Order),
    /// The ticket of the submitted command, or why it was not taken.
    Took(Result<Ticket, SubmitFault>),
    /// The result of the command with this ticket.
    Answered(Ticket, CommandEnd),
    /// A quiet turn is over.
    Rested,
}

/// Attends a relay: submits commands between turns, is given the result of each, and may rest after
/// a quiet turn.
pub trait Desk<D: SectorDisk, P: Wire, C: Wire> {
    ghost use Rattle.std.specs.Prelude.{⊤};
    ghost use Rattle.macs_edge.specs.declared.attending.DeskEvent.{DeskEvent};
    ghost use Rattle.macs_edge.specs.declared.attending.DeskEvent.TheVariants.{Answered, Rested};
    ghost use Rattle.macs_edge.specs.declared.attending.DeskEvent.TheVariants.{Took, Wanted};

    /// What an event makes of it.
    ghost hears: { Self → DeskEvent → Self → Type 0 } = { λ _ _ _. ⊤ };

    /// The order before a turn. It may read the endpoint and the wires. After a quiet turn it may
    /// sleep for a bounded time; otherwise it does not wait.
    fn next(&mut self, endpoint: &Endpoint<D>, controlled: &P, common: &C, was_quiet: bool) -> Order
        ensures { hears self.old (Wanted was_quiet result) self.new };

    /// Receives the ticket of the command that it submitted, or why that was not taken.
    fn took(&mut self, answer: Result<Ticket, SubmitFault>)
        ensures { hears self.old (Took answer) self.new };

    /// Receives the result of a command that was taken.
    fn answered(&mut self, ticket: Ticket, end: CommandEnd)
        ensures { hears self.old (Answered ticket end) self.new };

    /// Rests after a quiet turn: it may sleep for a bounded time.
    fn rest(&mut self)
        ensures { hears self.old Rested self.new };

    /// Pauses while a frame waits for packet numbers, the disk has not answered, and nothing else
    /// passes: it may sleep until the disk answers, for at most a millisecond.
    fn pause(&mut self)
        ensures { self.new ≡ self.old }
    {}
}

/// Carries out a desk's order before a turn, and reports to it. Returns whether a turn follows.
fn obey<D: SectorDisk, P: Wire, C: Wire, K: Desk<D, P, C>>(
    endpoint: &mut Endpoint<D>,
    controlled: &P,
    common: &C,
    desk: &mut K,
    was_quiet: bool,
) -> bool
    ensures { (events : List DeskEvent)
        × Obeys D.disk was_quiet endpoint.old events result endpoint.new
        × InTurn K.hears desk.old events desk.new }
{
    match desk.next(endpoint, controlled, common, was_quiet) {
        Order::Go => true,
        Order::Submit(command) => {
            endpoint.facts();
            desk.took(endpoint.submit(command));
            true
        }
        Order::End => false,
    }
}

/// Reports the result of the command that a step completes.
fn tell<D: SectorDisk, P: Wire, C: Wire, K: Desk<D, P, C>>(desk: &mut K, step: Option<Step>)
    ensures { InTurn K.hears desk.old (answers_of step) desk.new }
{
    let Some(step) = step else {
        return;
    };
    match step {
        Step::Done(ticket, result) => desk.answered(ticket, CommandEnd::Done(result)),
        Step::Idle | Step::Worked | Step::Reserved => {}
    }
}

/// Lets a desk rest if a turn was quiet.
fn rest<D: SectorDisk, P: Wire, C: Wire, K: Desk<D, P, C>>(desk: &mut K, is_quiet: bool)
    ensures { InTurn K.hears desk.old (rests_after is_quiet) desk.new }
{
    if is_quiet {
        desk.rest();
    }
}

/// Lets a desk pause if frames are held up.
fn pause<D: SectorDisk, P: Wire, C: Wire, K: Desk<D, P, C>>(desk: &mut K, is_held_up: bool)
    ensures { desk.new ≡ desk.old }
{
    if is_held_up {
        desk.pause();
    }
}

/// Answers the pending commands as failed, in order.
fn close<D: SectorDisk, P: Wire, C: Wire, K: Desk<D, P, C>>(endpoint: &Endpoint<D>, desk: &mut K)
    ensures { InTurn K.hears desk.old (failed_of endpoint.now.waiting) desk.new }
{
    for waiting in endpoint.waiting() {
        desk.answered(waiting.ticket, CommandEnd::Failed);
    }
}

/// Takes turns up to the end, or to the first one whose step is refused.
fn attend_turns<D: SectorDisk, P: Wire, C: Wire, K: Desk<D, P, C>>(
    endpoint: &mut Endpoint<D>,
    controlled: &mut P,
    common: &mut C,
    to_common: &mut Lane,
    to_controlled: &mut Lane,
    desk: &mut K,
    turns: u64,
) -> Result<(), StepFault>
    ensures { (events : List DeskEvent) × AttendsTurns D.disk turns
        (relay_of endpoint.old (P.state controlled.old) (C.state common.old)
        (lane_value to_common.old) (lane_value to_controlled.old)) events result
        (relay_of endpoint.new (P.state controlled.new) (C.state common.new)
        (lane_value to_common.new) (lane_value to_controlled.new))
        × InTurn K.hears desk.old events desk.new }
{
    let mut out = FrameBuf::new();
    let mut is_quiet = false;
    for _ in 0..turns {
        if !obey(endpoint, controlled, common, desk, is_quiet) {
            return Ok(());
        }
        let out_before = to_common.tally;
        let back_before = to_controlled.tally;
        let step = turn(
            endpoint,
            controlled,
            common,
            to_common,
            to_controlled,
            &mut out,
        )?;
        is_quiet = was_quiet(&step, out_before, back_before, to_common, to_controlled);
        let is_held_up = are_held_up(&step, out_before, back_before, to_common, to_controlled);
        tell::<D, P, C, K>(desk, step);
        rest::<D, P, C, K>(desk, is_quiet);
        pause::<D, P, C, K>(desk, is_held_up);
    }
    Ok(())
}

/// Relays frames between two wires as `relay` does, in at most `turns` turns. Before each turn the
/// desk is asked for an order: the relay continues, a command is submitted, or the relay ends. A
/// requested end comes at once, with no further turn. After a turn whose step completes a command
/// the desk is given its result.
///
/// The desk rests once after each quiet turn, and after no other: one whose step found no work, or
/// in which the disk has not answered; which leaves both lanes empty, and in which neither a frame
/// nor a failed call of a wire was counted. A rest touches neither the endpoint nor the wires.
///
/// At the end, even after a refused step, each command that is still pending is answered as failed.
/// So each command that was taken is answered once, in the order of tickets.
pub fn attend<D: SectorDisk, P: Wire, C: Wire, K: Desk<D, P, C>>(
    endpoint: &mut Endpoint<D>,
    controlled: &mut P,
    common: &mut C,
    desk: &mut K,
    turns: u64,
) -> Result<RelaySummary, RefillFault>
    ensures attended { (events : List DeskEvent) × IsAttended D.disk turns
        (relay_of endpoint.old (P.state controlled.old) (C.state common.old) empty_lane empty_lane)
        events result endpoint.new (P.state controlled.new) (C.state common.new)
        × InTurn K.hears desk.old events desk.new }
    ensures lives { LivesOn D.disk endpoint.old endpoint.new }
{
    let mut to_common = Lane::new();
    let mut to_controlled = Lane::new();
    let ended = attend_turns(
        endpoint,
        controlled,
        common,
        &mut to_common,
        &mut to_controlled,
        desk,
        turns,
    );
    close::<D, P, C, K>(endpoint, desk);
    ended?;
    Ok(summed(&to_common, &to_controlled))
}
